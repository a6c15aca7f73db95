//! Laws of the definitions. The functions do nothing: what is proved is what they ensure.

ghost use Rattle.std.specs.Prelude.{◌≡◌, Some};
ghost use Rattle.rob_case.specs.Texts.{shown_bytes, spelled};

/// Bytes as they are shown spell those bytes.
pub fn shown_is_spelled(bytes: &[u8])
    ensures spelled { spelled (shown_bytes bytes.now) ≡ Some bytes.now }
{
    let _bytes = bytes;
}
