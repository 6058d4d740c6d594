//! Runs to a branch to itself.
ghost use Rattle.std.specs.Prelude.{ℕ, ◌≡◌};
ghost use Rattle.cpu12_emul.specs.{Run.is_at_rest, Run.EndsRun, Step.SameMachine};

use crate::ends::RunEnd;
use crate::machine::Machine;
use cpu12_isa::mem::Mem;

impl<M: Mem> Machine<M> {
    /// Whether PC is at `20 FE`, a branch to itself.
    fn is_at_rest(&self) -> bool
        ensures { result ≡ is_at_rest self.now.state }
    {
        self.peek(self.regs.pc) == 0x20 && self.peek(self.regs.pc.wrapping_add(1)) == 0xFE
    }

    /// Does steps until PC is at a branch to itself: `Arrived` with the least number of steps, at most `budget`,
    /// after which it is; else `Trap` if a step is undefined, or `Budget` if `budget` steps were done without
    /// arriving. The machine is left as those steps left it.
    pub fn run(&mut self, budget: u32) -> RunEnd
        ensures ends { EndsRun self.old.flags budget self.old.state result self.new.state }
        ensures machine { SameMachine self.old self.new }
    {
        let mut steps = 0;
        while !self.is_at_rest() {
            if steps == budget {
                return RunEnd::Budget(steps);
            }
            match self.step() {
                Ok(_) => {}
                Err(trap) => return RunEnd::Trap(trap.pc, trap.byte),
            }
            steps += 1;
        }
        RunEnd::Arrived(steps)
    }
}
