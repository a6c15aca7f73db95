//! The statements of a text of either version, in one pass over its lines.

ghost use Rattle.std.specs.Prelude.{◌≡◌, ◌≤◌, ◌<◌, ◌+◌, ◌^◌, [], ◌∷◌, false, length, map, drop, IfOk, IfErr, MatchResult, OnOk};
ghost use Rattle.rob_index.specs.Reading.{IsOf};
ghost use Rattle.rob_rules.specs.declared.lines.Stop.TheVariants.{Memory};
ghost use Rattle.rob_rules.specs.Scopes.{earlier_of};
ghost use Rattle.rob_rules.specs.Stages.{IsBetween, StartsAt, ReadsOn, IsAppended, IsTaken, HasFaultStop, HasIndexStop, HasLineStop, HasNoStatement, HaveStop, IsExpanded, IsWidened, LeaveRoom, lower_of, lowest_fault, behind_all, declare_all, mark_declared, padded, stage_of};
ghost use Rattle.rob_rules.specs.Texts.{Reads, HasTextCause};
ghost use Rattle.rob_syntax.specs.Known.{texts};
ghost use Rattle.rob_syntax.specs.SeenSymbols.{seen_line};
ghost use Rattle.rob_syntax.specs.Seen.{seen_statement};
ghost use Rattle.rob_syntax.specs.Symbols.{words_of, symbols_of, token_lines};
ghost use Rattle.rob_syntax.specs.Versions.{body, seen_version};

use crate::error::ModelErr;
use crate::fault::{Fault, first_fault};
use crate::indices::judge_indices;
use crate::scope::{Scope, declared_by};
use crate::sort::Sort;
use rob_expand::{Refusal, expand};
use rob_lex::{LexErr, Token, tokens};
use rob_number::List;
use rob_syntax::indexed::{is_plain, read_statement};
use rob_syntax::syntax::{Indexed, Statement};
use rob_syntax::{
    ParseErr, Symbol, Version, Words, body_line, collect_words, front_line, read_version, symbols,
};
use std::alloc::Global;

/// The rule of a line that is no statement.
const NO_STATEMENT: u8 = 11;

/// The statements of a text, and what its names stand for.
pub struct Statements {
    /// The statements, in order.
    pub list: List<Statement>,
    /// The words of the text, and behind them the names that lines have brought; the names in the statements are their
    /// numbers.
    pub words: Words,
    /// What is known behind the last line.
    pub scope: Scope,
}

impl Drop for Statements {
    /// Lets go of it in one call. A derived drop would stand in each function that does.
    fn drop(self) {
        let Statements {
            list: _list,
            words: _words,
            scope: _scope,
        } = self;
    }
}

/// What is kept from line to line.
#[derive(Drop)]
pub struct Reader {
    /// The plain statements so far.
    pub list: List<Statement>,
    /// The words of the text: the names of lines are their numbers.
    pub own: Words,
    /// The same, and behind them the names that lines have brought: the names of plain statements are their numbers.
    pub words: Words,
    /// What is known behind the plain statements so far.
    pub scope: Scope,
    /// What is known in front of the line: the same between two lines.
    pub front: Scope,
    /// Whether each word is declared on an earlier line.
    pub declared: Vec<bool>,
    /// The canonical tokens of the lines so far.
    pub total: u32,
}

/// Why a line isn't read.
#[derive(Drop)]
pub enum Stop {
    /// The number of the rule that it breaks.
    Rule(u8),
    /// Memory was refused.
    Memory,
}

impl From<rob_number::Memory> for Stop {
    ghost from_gives = { λ _ e. e ≡ Memory };

    fn from(_e: rob_number::Memory) -> Stop {
        Stop::Memory
    }
}

/// The plain statements of a text whose numbers' digits are at most `limit`, or the rule that it breaks and the line:
/// first the rules of tokens, over the whole text, then the first bad line, and on it the rule that is judged first.
pub fn read_text(alloc: Global, text: &[u8], limit: u64) -> Result<Statements, ModelErr>
    requires room { length text.now ≤ 2 ^ 30 }
    // Digits of a value over 2^62 - 1 aren't told apart.
    requires limit { limit < 2 ^ 62 }
    ensures read { IfOk result (λ s. Reads limit text.now (texts s.words.keys) s.list
        (earlier_of s.scope)) }
    ensures cause { IfErr result (λ e. HasTextCause limit text.now e) }
{
    let owned = match tokens(alloc, text) {
        Ok(tokens) => tokens,
        Err(LexErr::Rule(rule, line)) => return Err(ModelErr::Rule(rule, line)),
        Err(LexErr::Memory) => return Err(ModelErr::Memory),
    };
    let tokens = owned.as_slice();
    let version = read_version(text, tokens);
    let mut reader = Reader::start(alloc, text, tokens)?;
    let lines = reader.read_lines(alloc, limit, version, text, tokens)?;
    if !reader.scope.goal {
        return Err(ModelErr::Rule(Fault::NoObjective.rule(), lines));
    }
    let Reader {
        list,
        words,
        scope,
        ..
    } = reader;
    Ok(Statements { list, words, scope })
}

impl Reader {
    /// In front of the first line of a text with these tokens.
    fn start(alloc: Global, text: &[u8], tokens: &[Token]) -> Result<Reader, rob_number::Memory>
        ensures start { IfOk result (λ r. StartsAt (words_of text.now tokens.now) r) }
    {
        let own = collect_words(alloc, text, tokens)?;
        let words = collect_words(alloc, text, tokens)?;
        let scope = Scope::start(alloc, words.len())?;
        let front = Scope::start(alloc, words.len())?;
        let declared = vec![in alloc; false; words.len()]?;
        let list = List::new(alloc);
        Ok(Reader {
            list,
            own,
            words,
            scope,
            front,
            declared,
            total: 0,
        })
    }

    /// Reads the lines of the tokens, and answers how many there are.
    fn read_lines(
        &mut self,
        alloc: Global,
        limit: u64,
        version: Version,
        text: &[u8],
        tokens: &[Token],
    ) -> Result<u32, ModelErr>
        requires between { IsBetween (texts self.old.own.keys) self.old }
        requires room { length tokens.now ≤ 2 ^ 30 }
        ensures count { IfOk result (λ n. n ≡ length (token_lines tokens.now)) }
        ensures lines { MatchResult result
            (λ _. ReadsOn limit (texts self.old.own.keys) (seen_version version)
            (map seen_line
            (map (symbols_of text.now (seen_version version) (texts self.old.own.keys))
            (body text.now false (token_lines tokens.now)))) self.old self.new)
            (λ e. HaveStop limit (texts self.old.own.keys) (seen_version version)
            (stage_of limit (texts self.old.own.keys) (seen_version version) self.old)
            (map seen_line
            (map (symbols_of text.now (seen_version version) (texts self.old.own.keys))
            (body text.now false (token_lines tokens.now)))) e) }
    {
        let mut line = 0;
        let mut begun = false;
        let mut rest = Some(tokens);
        while let Some(tokens) = rest {
            line += 1;
            let (front, behind) = front_line(tokens);
            let read = body_line(text, &mut begun, front);
            let symbols = symbols(alloc, version, &self.own, text, read)?;
            match self.read_line(alloc, limit, version, &symbols) {
                Ok(()) => {}
                Err(Stop::Rule(rule)) => return Err(ModelErr::Rule(rule, line)),
                Err(Stop::Memory) => return Err(ModelErr::Memory),
            }
            rest = behind;
        }
        Ok(line)
    }

    /// Reads one more line: nothing of an empty one.
    fn read_line(
        &mut self,
        alloc: Global,
        limit: u64,
        version: Version,
        symbols: &[Symbol],
    ) -> Result<(), Stop>
        requires between { IsBetween (texts self.old.own.keys) self.old }
        ensures line { MatchResult result
            (λ _. ReadsOn limit (texts self.old.own.keys) (seen_version version)
            (seen_line symbols.now ∷ []) self.old self.new)
            (λ e. HasLineStop limit (texts self.old.own.keys) (seen_version version)
            (stage_of limit (texts self.old.own.keys) (seen_version version) self.old)
            (seen_line symbols.now) e) }
    {
        if symbols.is_empty() {
            return Ok(());
        }
        let count = self.list.items().len();
        self.append_line(alloc, limit, version, symbols)?;
        self.judge_behind(alloc, limit, count)
    }

    /// Appends what a line with a symbol stands for, if it is a statement that breaks no rule of indices.
    fn append_line(
        &mut self,
        alloc: Global,
        limit: u64,
        version: Version,
        symbols: &[Symbol],
    ) -> Result<(), Stop>
        requires between { IsBetween (texts self.old.own.keys) self.old }
        requires some { 0 < length symbols.now }
        ensures appended { MatchResult result
            (λ _. IsAppended limit (texts self.old.own.keys) (seen_version version)
            (seen_line symbols.now) self.old self.new)
            (λ e. HasLineStop limit (texts self.old.own.keys) (seen_version version)
            (stage_of limit (texts self.old.own.keys) (seen_version version) self.old)
            (seen_line symbols.now) e) }
    {
        let statement = statement_of(alloc, version, symbols)?;
        self.expand_line(alloc, limit, &statement)
    }

    /// Judges the statements behind the first ones, which are so many, and takes them into account.
    fn judge_behind(&mut self, alloc: Global, limit: u64, count: usize) -> Result<(), Stop>
        requires count { count ≤ length self.old.list }
        requires small { LeaveRoom self.old.scope.sizes (drop count self.old.list) }
        requires front { earlier_of self.old.front ≡ earlier_of self.old.scope }
        ensures taken { MatchResult result (λ _. IsTaken limit count self.old self.new)
            (λ e. HasFaultStop limit count self.old e) }
    {
        let more = &self.list.items()[count..];
        let fault = judge_all(alloc, limit, &self.front, &mut self.scope, more)?;
        if let Some(fault) = fault {
            return Err(Stop::Rule(fault.rule()));
        }
        catch_up(&mut self.front, &mut self.declared, more);
        Ok(())
    }

    /// Appends what a line stands for, if it breaks no rule of indices; its names come behind the words.
    fn expand_line(&mut self, alloc: Global, limit: u64, statement: &Indexed) -> Result<(), Stop>
        requires between { IsBetween (texts self.old.own.keys) self.old }
        ensures expanded { MatchResult result
            (λ _. IsExpanded limit (texts self.old.own.keys)
            (seen_statement statement.now) self.old self.new)
            (λ e. HasIndexStop limit (texts self.old.own.keys)
            (seen_statement statement.now) self.old e) }
    {
        let mut total = self.total;
        let fault = judge_indices(
            alloc,
            limit,
            self.declared.as_slice(),
            self.total,
            &mut total,
            statement,
        )?;
        if let Some(fault) = fault {
            return Err(Stop::Rule(fault.rule()));
        }
        match expand(
            alloc,
            limit,
            &self.own,
            &mut self.words,
            statement,
            &mut self.list,
        ) {
            Ok(()) => {}
            Err(Refusal::NoStatement) => return Err(Stop::Rule(NO_STATEMENT)),
            Err(Refusal::Memory) => return Err(Stop::Memory),
        }
        self.total = total;
        self.widen()?;
        Ok(())
    }

    /// Nothing is declared of words that have come.
    fn widen(&mut self) -> Result<(), rob_number::Memory>
        ensures widened { OnOk result (IsWidened self.old self.new) }
    {
        let words = self.words.len();
        pad(&mut self.scope.sorts, words, None)?;
        pad(&mut self.front.sorts, words, None)?;
        pad(&mut self.declared, words, false)?;
        Ok(())
    }
}

/// Appends the value until there are so many items.
fn pad<T: Copy + Drop>(list: &mut Vec<T>, count: usize, value: T) -> Result<(), rob_number::Memory>
    ensures padded { OnOk result (list.new.items ≡ padded count value list.old.items) }
{
    while list.len() < count {
        list.push(value)?;
    }
    Ok(())
}

/// The statement of a line of that version.
fn statement_of(alloc: Global, version: Version, symbols: &[Symbol]) -> Result<Indexed, Stop>
    ensures read { MatchResult result
        (λ s. IsOf (seen_version version) (seen_line symbols.now) (seen_statement s))
        (λ e. HasNoStatement (seen_version version) (seen_line symbols.now) e) }
{
    let statement = match read_statement(alloc, symbols) {
        Ok(statement) => statement,
        Err(ParseErr::NotAStatement) => return Err(Stop::Rule(NO_STATEMENT)),
        Err(ParseErr::Memory) => return Err(Stop::Memory),
    };
    match version {
        Version::One => {
            if is_plain(&statement) {
                Ok(statement)
            } else {
                Err(Stop::Rule(NO_STATEMENT))
            }
        }
        Version::Two => Ok(statement),
    }
}

/// The lowest fault of the statements of a line, if one has a fault; each is taken into account. `front` is what is
/// known in front of the line.
fn judge_all(
    alloc: Global,
    limit: u64,
    front: &Scope,
    scope: &mut Scope,
    statements: &[Statement],
) -> Result<Option<Fault>, rob_number::Memory>
    requires small { LeaveRoom scope.old.sizes statements.now }
    ensures fault { IfOk result
        (λ found. found
        ≡ lowest_fault limit (earlier_of front.now) (earlier_of scope.old) statements.now) }
    ensures noted { OnOk result (earlier_of scope.new
        ≡ behind_all (earlier_of scope.old) statements.now) }
{
    let mut lowest = None;
    for statement in statements {
        let fault = first_fault(alloc, limit, front, scope, statement)?;
        lowest = lower(lowest, fault);
        scope.note(statement);
    }
    Ok(lowest)
}

/// The lower of two faults, if there is one.
fn lower(one: Option<Fault>, other: Option<Fault>) -> Option<Fault>
    ensures lower { result ≡ lower_of one other }
{
    match (one, other) {
        (Some(fault), Some(next)) if next.rule() < fault.rule() => Some(next),
        (None, next) => next,
        (Some(fault), _) => Some(fault),
    }
}

/// Takes the statements of a line, none of which has a fault, into account of what is known in front of the next one.
fn catch_up(front: &mut Scope, declared: &mut [bool], statements: &[Statement])
    requires small { LeaveRoom front.old.sizes statements.now }
    ensures front { earlier_of front.new ≡ behind_all (earlier_of front.old) statements.now }
    ensures declared { declared.new ≡ declare_all
        (earlier_of front.old) declared.old statements.now }
{
    for statement in statements {
        mark(declared, declared_by(front.sizes, statement));
        front.note(statement);
    }
}

/// Writes that a name is declared.
fn mark(declared: &mut [bool], declaration: Option<(usize, Sort)>)
    ensures marked { declared.new ≡ mark_declared declared.old declaration }
{
    if let Some((name, _)) = declaration {
        if name < declared.len() {
            declared[name] = true;
        }
    }
}
