ghost use Rattle.std.specs.Prelude.{◌≡◌};
ghost use Rattle.vx_translate.specs.Table.{of_scheme};

use vx_scheme::{Scheme, SchemeName};

/// Asks a question, which is a function over any range language, of the language of the named scheme: the one table of
/// schemes of the code, as `of_scheme` is that of the definitions. A further scheme is one arm more.
macro_rules! of_scheme {
    ($name:expr, $question:ident($($argument:expr),*)) => {
        match $name {
            vx_scheme::SchemeName::Npm => $question::<npm_range::NpmRange>($($argument),*),
            vx_scheme::SchemeName::Pypi => $question::<pep440_range::PypiRange>($($argument),*),
            vx_scheme::SchemeName::Maven => $question::<bracket_ranges::MavenRange>($($argument),*),
            vx_scheme::SchemeName::Gem => $question::<relation_ranges::GemRange>($($argument),*),
            vx_scheme::SchemeName::Deb => $question::<relation_ranges::DebRange>($($argument),*),
            vx_scheme::SchemeName::Rpm => $question::<relation_ranges::RpmRange>($($argument),*),
            vx_scheme::SchemeName::Nuget => $question::<bracket_ranges::NugetRange>($($argument),*),
            vx_scheme::SchemeName::Cargo => $question::<cargo_range::Cargo>($($argument),*),
        }
    };
}

pub(crate) use of_scheme;

fn scheme_name<S: Scheme>() -> SchemeName
    ensures { result ≡ S.name }
{
    S::scheme()
}

/// The scheme that stands in the row of a scheme, in the table of the code and in that of the definitions: itself. It
/// takes no memory.
pub fn row_name(name: SchemeName) -> SchemeName
    ensures code { result ≡ name }
    ensures definitions { of_scheme (λ row. row.scheme.name) name ≡ name }
{
    of_scheme!(name, scheme_name())
}
