//! The routes to an answer.

ghost use Rattle.std.specs.Prelude.{◌≡◌, MatchOption};
ghost use Rattle.rob_words.specs.Values.{route_text};
ghost use Rattle.rob_words.specs.declared.route.Route.{Route};

/// The way by which a model is solved.
#[derive(Debug, Clone, Copy, PartialEq, Eq)]
pub enum Route {
    /// By the robust counterpart, a linear program that duality gives. The route where the command line names none.
    Dual,
    /// By the cutting-plane method: rounds of a linear program over worst scenarios found so far.
    Cuts,
}

impl Route {
    /// The route that the text names.
    pub(crate) fn spelled(text: &str) -> Option<Route>
        ensures spelled { MatchOption result
            ((route : Route) → text.now ≡ route_text route → ⊥)
            (λ route. text.now ≡ route_text route) }
    {
        match text {
            "dual" => Some(Route::Dual),
            "cuts" => Some(Route::Cuts),
            _ => None,
        }
    }

    /// The name of the route, as it is spelled.
    pub fn word(&self) -> &'static str
        ensures word { result.now ≡ route_text self.now }
    {
        match self {
            Route::Dual => "dual",
            Route::Cuts => "cuts",
        }
    }
}
