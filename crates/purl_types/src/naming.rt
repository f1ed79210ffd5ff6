ghost use Rattle.std.specs.Prelude.{◌≡◌, ◌≢◌, MatchOption};
ghost use Rattle.vx_scheme.specs.Names.{scheme_named, text_of};
ghost use Rattle.vx_scheme.specs.declared.name.SchemeName.{SchemeName};

use purl_core::Purl;
use vx_scheme::SchemeName;

/// The scheme whose name is the package URL's type. `None` comes exactly where it is the name of none. It takes no memory.
pub fn scheme_of(purl: &Purl) -> Option<SchemeName>
    ensures scheme { result ≡ scheme_named purl.now.kind }
    ensures named { MatchOption result ((name : SchemeName) → text_of name ≢ purl.now.kind) (λ name. text_of name ≡ purl.now.kind) }
{
    SchemeName::named(purl.kind.as_str())
}
