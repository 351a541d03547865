// The lists of a sheet.
ghost use Rattle.std.specs.Prelude.{◌≡◌};
ghost use Rattle.runsheet.specs.Said.{said};

use super::Sheet;
use fabric::parts::Cable;
use text::parts::Packet;

impl Sheet {
    // The cables in the order of their lines; a mesh has none.
    pub fn cables(&self) -> &[Cable]
        ensures { result.now ≡ (said self.now).cables }
    {
        self.cables.as_slice()
    }

    // The packets in the order of their lines.
    pub fn packets(&self) -> &[Packet]
        ensures { result.now ≡ (said self.now).packets }
    {
        self.packets.as_slice()
    }
}
