// A fresh module of a kind: as the bench has it, but for its address, or with an identity of its own ("The program").
ghost use Rattle.std.specs.Prelude.{◌≡◌};
ghost use Rattle.roster.specs.Seat.{identity_of, fresh_as, fresh_at, bench_of};

use crate::word::Kind;
use module::state::{Identity, Module};
use wire::address::Address;

// A module alone, at one address whatever its kind.
pub fn bench_of(kind: Kind) -> Module
    ensures { result ≡ bench_of kind }
{
    let own = Address {
        high: 0x00,
        middle: 0x10,
        low: 0x3a,
    };
    fresh_at(kind, own)
}

pub fn fresh_at(kind: Kind, a: Address) -> Module
    ensures { result ≡ fresh_at kind a }
{
    match kind {
        Kind::Dimmer => Module::fresh_dimmer(identity(a, 0x01, 0x0f, 0xc1)),
        Kind::Outlet => Module::fresh_outlet(identity(a, 0x02, 0x39, 0xc2)),
    }
}

pub fn fresh_as(kind: Kind, identity: Identity) -> Module
    ensures { result ≡ fresh_as kind identity }
{
    match kind {
        Kind::Dimmer => Module::fresh_dimmer(identity),
        Kind::Outlet => Module::fresh_outlet(identity),
    }
}

fn identity(a: Address, category: u8, subcategory: u8, firmware: u8) -> Identity
    ensures { result ≡ identity_of a category subcategory firmware }
{
    Identity {
        address: a,
        category,
        subcategory,
        firmware,
        revision: 0x00,
    }
}
