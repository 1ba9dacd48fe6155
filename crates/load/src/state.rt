// The loads ("The module we simulate"; the outlet by request 1), and the constants that fresh ones start with.
ghost use Rattle.std.specs.Prelude.{◌≡◌};
ghost use Rattle.load.specs.Fresh.{fresh_lamp, fresh_sockets};

#[derive(Clone, Copy)]
pub enum Load {
    Dimmer(Lamp),
    Outlet(Sockets),
}

#[derive(Clone, Copy)]
pub struct Lamp {
    pub level: u8,
    pub ramp: u8,
    pub on_level: u8,
}

// Each on or off.
#[derive(Clone, Copy)]
pub struct Sockets {
    pub top: bool,
    pub bottom: bool,
}

pub const FRESH_LEVEL: u8 = 0x00;

pub const FRESH_RAMP: u8 = 0x1f;

pub const FRESH_ON_LEVEL: u8 = 0xff;

pub const FRESH_TOP: bool = false;

pub const FRESH_BOTTOM: bool = false;

// A fresh one.
impl Default for Lamp {
    ghost is_default = { λ lamp. lamp ≡ fresh_lamp };

    fn default() -> Lamp {
        Lamp {
            level: FRESH_LEVEL,
            ramp: FRESH_RAMP,
            on_level: FRESH_ON_LEVEL,
        }
    }
}

// Fresh ones.
impl Default for Sockets {
    ghost is_default = { λ sockets. sockets ≡ fresh_sockets };

    fn default() -> Sockets {
        Sockets {
            top: FRESH_TOP,
            bottom: FRESH_BOTTOM,
        }
    }
}
