ghost use Rattle.std.specs.Prelude.{◌∷◌, [], List, ℕ};
ghost use Rattle.vx_batch.specs.Requests.{IsAsked, request_texts};
ghost use Rattle.vx_batch.specs.Rows.{IsRow};

use crate::row::Row;

/// What a line asks: a command that answers one line, with its fields.
#[derive(Debug, Clone, Copy, PartialEq, Eq)]
pub enum Request<T> {
    /// The VERS text of a range text of a scheme, in a domain.
    ToVers {
        /// The scheme's name.
        scheme: T,
        /// The domain's name, or `-` for the scheme's default.
        domain: T,
        /// The range text.
        range: T,
    },
    /// The range text of a VERS text, in a domain.
    FromVers {
        /// The domain's name, or `-` for the scheme's default.
        domain: T,
        /// The VERS text.
        vers: T,
    },
    /// The canonical text of a VERS text.
    Canon {
        /// The VERS text.
        vers: T,
    },
    /// Whether a VERS text holds a version.
    Has {
        /// The VERS text.
        vers: T,
        /// The version.
        version: T,
    },
    /// The canonical text of a package URL.
    Purl {
        /// The package URL.
        purl: T,
    },
    /// Whether two package URLs mean the same package.
    Same {
        /// The one package URL.
        first: T,
        /// The other.
        second: T,
    },
    /// Whether the version of a package URL is held by a VERS text.
    Check {
        /// The package URL.
        purl: T,
        /// The VERS text.
        vers: T,
    },
}

/// The request that a row of fields makes: its first field is the command's name, and as many stand behind it as the
/// command takes. `None` comes exactly where there is none. It takes no memory.
pub fn request_of<'a>(row: &Row<'a>) -> Option<Request<&'a str>>
    ensures { (fields : List (List ℕ)) → IsRow fields row.now → IsAsked fields (request_texts (λ field. field.now) result) }
{
    match *row {
        Row::Two(name, field) => request_of_two(name, field),
        Row::Three(name, first, second) => request_of_three(name, first, second),
        Row::Four(name, first, second, third) => request_of_four(name, first, second, third),
        Row::One(_) => None,
        Row::Other => None,
    }
}

// The request of a command with one field.
fn request_of_two<'a>(name: &str, field: &'a str) -> Option<Request<&'a str>>
    ensures { IsAsked (name.now ∷ field.now ∷ []) (request_texts (λ field. field.now) result) }
{
    match name {
        "canon" => Some(Request::Canon { vers: field }),
        "purl" => Some(Request::Purl { purl: field }),
        _ => None,
    }
}

// The request of a command with two fields.
fn request_of_three<'a>(name: &str, first: &'a str, second: &'a str) -> Option<Request<&'a str>>
    ensures { IsAsked (name.now ∷ first.now ∷ second.now ∷ []) (request_texts (λ field. field.now) result) }
{
    match name {
        "from-vers" => Some(Request::FromVers {
            domain: first,
            vers: second,
        }),
        "has" => Some(Request::Has {
            vers: first,
            version: second,
        }),
        "same" => Some(Request::Same { first, second }),
        "check" => Some(Request::Check {
            purl: first,
            vers: second,
        }),
        _ => None,
    }
}

// The request of a command with three fields.
fn request_of_four<'a>(
    name: &str,
    first: &'a str,
    second: &'a str,
    third: &'a str,
) -> Option<Request<&'a str>>
    ensures { IsAsked (name.now ∷ first.now ∷ second.now ∷ third.now ∷ []) (request_texts (λ field. field.now) result) }
{
    match name {
        "to-vers" => Some(Request::ToVers {
            scheme: first,
            domain: second,
            range: third,
        }),
        _ => None,
    }
}
