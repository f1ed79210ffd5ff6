use crate::back::text_of_spans;
use crate::bounds::bounds_of;
use crate::scheme::Cargo;
use crate::version::CargoVersion;
use std::alloc::Global;
use vx_scheme::{BackFault, Bounds, Domain, Native, RangeFault, Spans, Text};

impl Native for Cargo {
    ghost use Rattle.vx_scheme.specs.declared.domain.Domain.TheVariants as domain_of;
    ghost use Rattle.cargo_range.specs.Range.{Offers, IsRange, In, Makes, Refuses};
    ghost use Rattle.cargo_range.specs.Back.{back};
    ghost use Rattle.cargo_range.specs.Laws.Ranges.{cargo_ranges};
    ghost use Rattle.cargo_range.specs.Laws.Backs.{cargo_backs};

    ghost Offers = { Offers };

    ghost usual = { domain_of.Releases };

    ghost IsRange = { IsRange };

    ghost In = { In };

    ghost Makes = { Makes };

    ghost Refuses = { Refuses };

    ghost back = { back };

    ghost ranges = { cargo_ranges };

    ghost backs = { cargo_backs };

    /// It is only for releases.
    fn offers(domain: Domain) -> bool {
        domain.is_releases()
    }

    /// It is releases.
    fn default_domain() -> Domain {
        Domain::Releases
    }

    /// The spans that a requirement makes, one term for each comparator. `Syntax(0)` comes exactly where `semver` refuses
    /// the text; else `Numeral` comes exactly where a number cannot be raised, at the place of the first comparator of
    /// which that is so.
    fn bounds(
        alloc: Global,
        text: &str,
        _domain: Domain,
    ) -> Result<Bounds<CargoVersion>, RangeFault> {
        bounds_of(alloc, text)
    }

    /// The requirement of the spans among releases: one interval. A cut at a pre-release is put before the release of its
    /// numbers. `NothingInDomain(1)` comes exactly where no span is then left, and `PointHole` or `NotOneInterval` exactly
    /// where more than one is, by the first gap.
    fn unbounds(
        alloc: Global,
        spans: &Spans<CargoVersion>,
        _domain: Domain,
    ) -> Result<Text, BackFault> {
        let text = text_of_spans(alloc, spans.as_slice())?;
        Ok(text)
    }
}
