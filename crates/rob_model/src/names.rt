//! The names of forms, decision columns, set rows, set places and parameters: how many there are, the number of a name,
//! and the name of a number.

ghost use Rattle.std.specs.Prelude.{◌≡◌, ◌<◌, length, OnOk, OnErr};
ghost use Rattle.rob_meaning.specs.Named.{IsNamed};
ghost use Rattle.rob_meaning.specs.Names.{form_names, column_names, set_row_names};
ghost use Rattle.rob_model.specs.NameGroups.{names};
ghost use Rattle.rob_model.specs.Naming.{Finds, FindsOwn, AppendsName, parameter_names, set_place_names};
ghost use Rattle.rob_model.specs.Valid.{IsValid};
ghost use Rattle.rob_model.specs.View.{robust};

use crate::group::Kind;
use crate::groups::{group_at, group_count};
use crate::model::Model;
use rob_number::{Exact, Memory, Text};

// ---- how many
/// The number of forms: the objective, each row (two for an equality), and each declared bound of a variable.
pub fn form_count<N: Exact>(model: &Model<N>) -> u32
    requires valid { IsValid N.value model.now }
    ensures count { result ≡ length (form_names (robust N.value model.now)) }
{
    count(model, Kind::Form)
}

/// The number of decision columns.
pub fn column_count<N: Exact>(model: &Model<N>) -> u32
    requires valid { IsValid N.value model.now }
    ensures count { result ≡ length (column_names (robust N.value model.now)) }
{
    count(model, Kind::Column)
}

/// The number of rows of the lifted set.
pub fn set_row_count<N: Exact>(model: &Model<N>) -> u32
    requires valid { IsValid N.value model.now }
    ensures count { result ≡ length (set_row_names (robust N.value model.now)) }
{
    count(model, Kind::SetRow)
}

/// The number of places of the set: its conditions, and behind them its columns.
pub fn set_place_count<N: Exact>(model: &Model<N>) -> u32
    requires valid { IsValid N.value model.now }
    ensures count { result ≡ length (set_place_names (robust N.value model.now)) }
{
    count(model, Kind::SetPlace)
}

// ---- the number of a name
/// The number of a form's name.
pub fn find_form<N: Exact>(model: &Model<N>, name: &[u8]) -> Option<u32>
    requires valid { IsValid N.value model.now }
    ensures found { Finds (form_names (robust N.value model.now)) name.now result }
    // Where the declared names are plain, free and distinct, each name is found at its own number.
    ensures own { IsNamed (robust N.value model.now)
        → FindsOwn (form_names (robust N.value model.now)) name.now result }
{
    find(model, Kind::Form, name)
}

/// The number of a decision column's name.
pub fn find_column<N: Exact>(model: &Model<N>, name: &[u8]) -> Option<u32>
    requires valid { IsValid N.value model.now }
    ensures found { Finds (column_names (robust N.value model.now)) name.now result }
    // Where the declared names are plain, free and distinct, each name is found at its own number.
    ensures own { IsNamed (robust N.value model.now)
        → FindsOwn (column_names (robust N.value model.now)) name.now result }
{
    find(model, Kind::Column, name)
}

/// The number of a set row's name.
pub fn find_set_row<N: Exact>(model: &Model<N>, name: &[u8]) -> Option<u32>
    requires valid { IsValid N.value model.now }
    ensures found { Finds (set_row_names (robust N.value model.now)) name.now result }
    // Where the declared names are plain, free and distinct, each name is found at its own number.
    ensures own { IsNamed (robust N.value model.now)
        → FindsOwn (set_row_names (robust N.value model.now)) name.now result }
{
    find(model, Kind::SetRow, name)
}

/// The number of a parameter's name.
pub fn find_param<N: Exact>(model: &Model<N>, name: &[u8]) -> Option<u32>
    requires valid { IsValid N.value model.now }
    ensures found { Finds (parameter_names (robust N.value model.now)) name.now result }
    // Where the declared names are plain, free and distinct, each name is found at its own number.
    ensures own { IsNamed (robust N.value model.now)
        → FindsOwn (parameter_names (robust N.value model.now)) name.now result }
{
    find(model, Kind::Parameters, name)
}

// ---- the name of a number
/// Appends the name of a form. After a refusal the text is unchanged.
pub fn put_form_name<N: Exact>(model: &Model<N>, index: u32, out: &mut Text) -> Result<(), Memory>
    requires valid { IsValid N.value model.now }
    requires inside { index < length (form_names (robust N.value model.now)) }
    ensures appended { OnOk result (AppendsName
        (form_names (robust N.value model.now)) index out.old out.new) }
    ensures unchanged { OnErr result (out.new ≡ out.old) }
{
    put(model, Kind::Form, index, out)
}

/// Appends the name of a decision column. After a refusal the text is unchanged.
pub fn put_column_name<N: Exact>(model: &Model<N>, index: u32, out: &mut Text) -> Result<(), Memory>
    requires valid { IsValid N.value model.now }
    requires inside { index < length (column_names (robust N.value model.now)) }
    ensures appended { OnOk result (AppendsName
        (column_names (robust N.value model.now)) index out.old out.new) }
    ensures unchanged { OnErr result (out.new ≡ out.old) }
{
    put(model, Kind::Column, index, out)
}

/// Appends the name of a set row. After a refusal the text is unchanged.
pub fn put_set_row_name<N: Exact>(
    model: &Model<N>,
    index: u32,
    out: &mut Text,
) -> Result<(), Memory>
    requires valid { IsValid N.value model.now }
    requires inside { index < length (set_row_names (robust N.value model.now)) }
    ensures appended { OnOk result (AppendsName
        (set_row_names (robust N.value model.now)) index out.old out.new) }
    ensures unchanged { OnErr result (out.new ≡ out.old) }
{
    put(model, Kind::SetRow, index, out)
}

/// Appends the name of a set place. After a refusal the text is unchanged.
pub fn put_set_place_name<N: Exact>(
    model: &Model<N>,
    index: u32,
    out: &mut Text,
) -> Result<(), Memory>
    requires valid { IsValid N.value model.now }
    requires inside { index < length (set_place_names (robust N.value model.now)) }
    ensures appended { OnOk result (AppendsName
        (set_place_names (robust N.value model.now)) index out.old out.new) }
    ensures unchanged { OnErr result (out.new ≡ out.old) }
{
    put(model, Kind::SetPlace, index, out)
}

// ---- the walks over the groups
/// The number of names of a kind.
fn count<N: Exact>(model: &Model<N>, kind: Kind) -> u32
    requires valid { IsValid N.value model.now }
    ensures count { result ≡ length (names kind (robust N.value model.now)) }
{
    let mut total = 0u32;
    for i in 0..group_count(model, kind) {
        total += group_at(model, kind, i).count();
    }
    total
}

/// The first number that has the name.
fn find<N: Exact>(model: &Model<N>, kind: Kind, name: &[u8]) -> Option<u32>
    requires valid { IsValid N.value model.now }
    ensures found { Finds (names kind (robust N.value model.now)) name.now result }
{
    let mut first = 0u32;
    for i in 0..group_count(model, kind) {
        let group = group_at(model, kind, i);
        match group.find(name) {
            Some(k) => return Some(first + k),
            None => first += group.count(),
        }
    }
    None
}

/// Appends the name of that number.
fn put<N: Exact>(model: &Model<N>, kind: Kind, index: u32, out: &mut Text) -> Result<(), Memory>
    requires valid { IsValid N.value model.now }
    requires inside { index < length (names kind (robust N.value model.now)) }
    ensures appended { OnOk result (AppendsName
        (names kind (robust N.value model.now)) index out.old out.new) }
    ensures unchanged { OnErr result (out.new ≡ out.old) }
{
    let mut left = index;
    for i in 0..group_count(model, kind) {
        let group = group_at(model, kind, i);
        let count = group.count();
        if left < count {
            return group.name(left).put(out);
        }
        left -= count;
    }
    unreachable!()
}
