//! The kinds of tagged attributes.

ghost use Rattle.std.specs.Prelude.{◌≡◌, ◌<◌, IfSome};
ghost use Rattle.tunnel_map.specs.Tagged as specs;

/// What the value of a tagged attribute is.
#[derive(Clone, Copy)]
pub(crate) enum Kind {
    /// A tag, and a number of three octets.
    Number,
    /// A tag and a text, or a text alone.
    Text,
}

/// The kind of a type, which is the code of the AVP too.
pub(crate) fn kind_of(code: u32) -> Option<Kind>
    ensures kind { result ≡ specs.kind_of code }
    ensures small { IfSome result (λ _. code < 256) }
{
    match code {
        64 | 65 | 83 => Some(Kind::Number),
        66 | 67 | 81 | 82 | 90 | 91 => Some(Kind::Text),
        _ => None,
    }
}
