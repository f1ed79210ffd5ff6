ghost use Rattle.std.specs.Prelude.{◌≡◌};
ghost use Rattle.vx_translate.specs.Domains.{chosen_domain, usual_of};
ghost use Rattle.vx_translate.specs.Table.{of_scheme};

use crate::table::of_scheme;
use vx_scheme::{Domain, Native, SchemeName};

fn usual_domain<N: Native>() -> Domain
    ensures { result ≡ N.usual }
{
    N::default_domain()
}

/// The domain that is meant where a line names none: the usual one of the scheme's range language. It takes no memory.
pub fn default_domain(name: SchemeName) -> Domain
    ensures usual { result ≡ usual_of name }
    ensures language { of_scheme (λ row. row.language.usual) name ≡ result }
{
    of_scheme!(name, usual_domain())
}

/// The domain that is named, or the default of the scheme where none is. It takes no memory.
pub fn chosen_domain(domain: Option<Domain>, name: SchemeName) -> Domain
    ensures { result ≡ chosen_domain domain name }
{
    domain.unwrap_or(default_domain(name))
}
