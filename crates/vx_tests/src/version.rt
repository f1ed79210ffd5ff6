use std::marker::Model;

/// A version: two digits, of which only the first counts in the order.
#[derive(Debug, Drop)]
pub struct Level {
    /// The digit by which versions are compared.
    pub level: u8,
    /// The digit that tells order-equal versions apart.
    pub tag: u8,
}

impl Model for Level {
    ghost use Rattle.vx_tests.specs.Levels.{Digits, IsVersion};

    ghost Value = { Digits };

    ghost view = { λ v. record { level = v.level; tag = v.tag } };

    ghost invariant = { λ v. IsVersion (record { level = v.level; tag = v.tag }) };
}
