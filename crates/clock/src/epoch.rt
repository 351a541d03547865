// The golden ticket: for an epoch its flits go before all others (in the field: the Golden Packet).
ghost use Rattle.std.specs.Prelude.{◌≡◌, ◌||◌, if◌then◌else◌, ◌==◌, nat_eq};
ghost use Rattle.clock.specs.Epochs.{golden_ticket};

// The ticket that is golden in a cycle. Where there is no ticket or an epoch has no cycle, the answer is 0.
pub fn golden(tickets: usize, epoch: usize, cycle: usize) -> usize
    ensures { result ≡ (if nat_eq tickets 0 || epoch == 0 then 0 else golden_ticket tickets epoch cycle) }
{
    if tickets == 0 || epoch == 0 {
        0
    } else {
        cycle / epoch % tickets
    }
}

#[cfg(test)]
mod tests {
    use super::*;

    #[test]
    fn two_tickets(rt: HostRuntime) {
        assert_eq!(rt; golden(2, 4, 3), 0);
        assert_eq!(rt; golden(2, 4, 4), 1);
        assert_eq!(rt; golden(2, 4, 8), 0);
        assert_eq!(rt; golden(0, 4, 4), 0);
        assert_eq!(rt; golden(2, 0, 4), 0);
    }
}
