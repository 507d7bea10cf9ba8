// The guard over a worker's registers while an instruction is done.
ghost use Rattle.std.specs.Prelude.{◌≡◌, if◌then◌else◌};
ghost use Rattle.records.specs.Registers.{with_p};

use records::Registers;

// Puts A, Q and B1 to B7 back on every way out, unless the instruction was accepted.
pub(crate) struct Guard<'a> {
    pub(crate) registers: &'a mut Registers,
    pub(crate) before: Registers,
    pub(crate) accepted: bool,
}

impl Drop for Guard<'_> {
    fn drop(self)
        ensures { self.exit.0.now ≡ (if self.entry.accepted then self.entry.registers.now else with_p self.entry.before self.entry.registers.now.p) }
    {
        let Guard {
            registers,
            before,
            accepted,
        } = self;
        if !accepted {
            registers.put_back(&before);
        }
    }
}
