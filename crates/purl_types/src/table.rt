ghost use Rattle.std.specs.Prelude.{◌≡◌};
ghost use Rattle.purl_types.specs.Table.{row_of};

/// How a text of a type is folded.
#[derive(Clone, Copy)]
pub(crate) enum Folding {
    /// It is kept.
    Kept,
    /// Its ASCII letters become lower case.
    Lowered,
    /// Its ASCII letters become lower case, and then each `_` becomes `-`.
    Dashed,
}

/// What a type says of its namespaces and its names.
#[derive(Clone, Copy)]
pub(crate) struct Row {
    pub(crate) namespace: Folding,
    pub(crate) name: Folding,
}

/// The row of a type in the type table. A type that has none keeps both.
pub(crate) fn row_of(kind: &str) -> Row
    ensures { result ≡ row_of kind.now }
{
    match kind {
        "pypi" => folds(Folding::Kept, Folding::Dashed),
        "github" | "bitbucket" | "golang" | "composer" | "deb" | "npm" => {
            folds(Folding::Lowered, Folding::Lowered)
        }
        "rpm" => folds(Folding::Lowered, Folding::Kept),
        _ => folds(Folding::Kept, Folding::Kept),
    }
}

fn folds(namespace: Folding, name: Folding) -> Row
    ensures namespace { result.namespace ≡ namespace }
    ensures name { result.name ≡ name }
{
    Row { namespace, name }
}
