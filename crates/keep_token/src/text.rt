ghost use Rattle.std.specs.Prelude.{◌≡◌, ◌↔◌, IsUtf8, IfErr, IfOk, IsOk};
ghost use Rattle.std.specs.Str.{IsValidUpTo};

/// The bytes as text, or the length of their longest prefix that is well-formed UTF-8.
///
/// TOML v1.0.0, "Spec": a document is UTF-8.
pub fn text_of(bytes: &[u8]) -> Result<&str, usize>
    ensures ok { IsOk result ↔ IsUtf8 bytes.now }
    ensures text { IfOk result (λ text. text.now ≡ bytes.now) }
    ensures prefix { IfErr result (IsValidUpTo bytes.now) }
{
    match simdutf8::compat::from_utf8(bytes) {
        Ok(text) => Ok(text),
        Err(error) => Err(error.valid_up_to()),
    }
}
