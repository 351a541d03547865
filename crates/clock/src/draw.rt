// The draw register (in the field: an LFSR), of which the switches have their draw bits.
ghost use Rattle.std.specs.Prelude.{◌≡◌};
ghost use Rattle.clock.specs.Draws.{shifted};

// Which bits of the LFSR are turned where a 1 is shifted out.
const TAPS: u16 = 0xB400;

pub fn shift(register: u16) -> u16
    ensures { result ≡ shifted register }
{
    let halved = register >> 1;
    if register % 2 == 1 {
        halved ^ TAPS
    } else {
        halved
    }
}

#[cfg(test)]
mod tests {
    use super::*;

    #[test]
    fn from_one(rt: HostRuntime) {
        assert_eq!(rt; shift(0x0001), 0xB400);
        assert_eq!(rt; shift(0xB400), 0x5A00);
    }
}
