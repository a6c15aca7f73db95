//! The widths of whole numbers.

ghost use Rattle.std.specs.Prelude.{◌≡◌, MatchOption};
ghost use Rattle.rob_words.specs.Values.{bits_of, greatest_of, width_text};
ghost use Rattle.rob_words.specs.declared.width.Width.{Width};

/// How wide the whole numbers are that a command computes with.
#[derive(Debug, Clone, Copy, PartialEq, Eq)]
pub enum Width {
    Eight,
    Sixteen,
    ThirtyTwo,
    /// The width where the command line names none.
    SixtyTwo,
}

impl Width {
    /// The width in bits.
    pub fn bits(&self) -> u32
        ensures bits { result ≡ bits_of self.now }
    {
        match self {
            Width::Eight => 8,
            Width::Sixteen => 16,
            Width::ThirtyTwo => 32,
            Width::SixtyTwo => 62,
        }
    }

    /// The greatest number of the width.
    pub fn greatest(&self) -> u64
        ensures greatest { result ≡ greatest_of self.now }
    {
        match self {
            Width::Eight => 255,
            Width::Sixteen => 65_535,
            Width::ThirtyTwo => 4_294_967_295,
            Width::SixtyTwo => 4_611_686_018_427_387_903,
        }
    }

    /// The width whose bits the text spells.
    pub(crate) fn spelled(text: &str) -> Option<Width>
        ensures spelled { MatchOption result
            ((width : Width) → text.now ≡ width_text width → ⊥)
            (λ width. text.now ≡ width_text width) }
    {
        match text {
            "8" => Some(Width::Eight),
            "16" => Some(Width::Sixteen),
            "32" => Some(Width::ThirtyTwo),
            "62" => Some(Width::SixtyTwo),
            _ => None,
        }
    }
}
