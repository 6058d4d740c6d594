//! A turn of the mailbox form, as a form of runs.
ghost use Rattle.std.specs.Prelude.{◌≡◌, ◌≤◌, ◌<◌, ◌+◌, ◌++◌, ◌∷◌, [], length, map, take};
ghost use Rattle.run_forms.specs.Rooms.{Fits};
ghost use Rattle.interrupt_plan.specs.Posts.{IsGoodPost};
ghost use Rattle.mailbox_runs.specs.Runs.{writes_from, post_writes, input_bytes, turn_harness};
ghost use Rattle.cpu12_emul.specs.Simulation.{OnStackOnly};
ghost use Rattle.interrupt_plan.specs.declared.Post as plan;
ghost use Rattle.mailbox_code.specs.Mailboxes.{is_postable};
ghost use Rattle.firmware_runs.specs.Facts.{FactsBeside};
ghost use Rattle.mailbox_runs.specs.Behind.{part_form, Copied, HoldsMail};

use cpu12_emul::machine::Machine;
use cpu12_isa::instr::Write;
use cpu12_isa::mem::Mem;
use eval_code::MemoryMap;
use firmware_code::Firmware;
use interrupt_plan::Post;
use run_forms::{Notes, SampleForm};
use run_law::laws::SoundForm;
use trace_io::Sample;

/// The most writes of a post: eight inputs, POSTED, and the post's own eight.
const MOST_WRITES: usize = 17;

/// A turn of the mailbox form of a firmware under posts of these samples, from one arrival where the code waits to
/// the next. It is given nothing. After the copy it is a sound form, to whose posts the mailbox is open too.
#[derive(Drop)]
pub(crate) struct MailboxForm<'a> {
    pub(crate) firmware: &'a Firmware,
    pub(crate) samples: &'a [Sample],
    /// The boundary at which it began.
    pub(crate) begun: u32,
}

/// Puts a write after the first `count`.
fn put(writes: &mut [Write], count: usize, write: Write)
    requires { count < length writes.old }
    ensures items { take (count + 1) writes.new ≡ take count writes.old ++ write ∷ [] }
    ensures len { length writes.new ≡ length writes.old }
{
    writes[count] = write;
}

/// Writes bytes one after the other, from an address on, after the first `count` writes. Returns how many writes
/// there are then.
fn put_bytes(writes: &mut [Write], count: usize, at: u16, bytes: &[u8]) -> usize
    requires { count + length bytes.now ≤ length writes.old }
    ensures items { take result writes.new ≡ take count writes.old ++ writes_from at bytes.now }
    ensures count { result ≡ count + length bytes.now }
    ensures len { length writes.new ≡ length writes.old }
{
    let mut done = count;
    let mut next = at;
    for byte in bytes {
        put(
            writes,
            done,
            Write {
                at: next,
                value: *byte,
            },
        );
        done += 1;
        next = next.wrapping_add(1);
    }
    done
}

/// Does the same with writes instead of bytes.
fn put_all(writes: &mut [Write], count: usize, more: &[Write]) -> usize
    requires { count + length more.now ≤ length writes.old }
    ensures items { take result writes.new ≡ take count writes.old ++ more.now }
    ensures count { result ≡ count + length more.now }
    ensures len { length writes.new ≡ length writes.old }
{
    let mut done = count;
    for write in more {
        put(writes, done, *write);
        done += 1;
    }
    done
}

/// What the handler of a post writes: the bytes of the sample, if any, and 1 to POSTED, and then the post's
/// writes. Returns the number of writes.
fn write_post(
    memory_map: &MemoryMap,
    samples: &[Sample],
    post: &Post,
    writes: &mut [Write],
) -> usize
    requires good { IsGoodPost (length samples.now) post.now }
    requires room { length writes.old ≡ 17 }
    ensures writes { take result writes.new ≡ post_writes memory_map.now (map input_bytes samples.now) post.now }
    ensures few { result ≤ length writes.new }
{
    let mut count = 0;
    if post.sample > 0 {
        let sample = &samples[post.sample as usize - 1];
        count = put_bytes(writes, 0, memory_map.samples, sample.bytes.as_slice());
        let posted = Write {
            at: memory_map.sample_flag,
            value: 1,
        };
        put(writes, count, posted);
        count += 1;
    }
    put_all(writes, count, post.writes.as_slice())
}

impl<'a> SampleForm<Post, Notes<()>, ()> for MailboxForm<'a> {
    ghost Given = { Unit {0} };

    ghost Told = { Unit {0} };

    ghost Shown = { Unit {0} };

    ghost harness = { λ x. turn_harness x.firmware.now (map input_bytes x.samples.now) x.begun };

    ghost fits = { Fits };

    ghost serves = { λ x. IsGoodPost (length x.samples.now) };

    fn ends<M: Mem>(&self, m: &Machine<M>, moment: u32) -> bool {
        self.begun < moment && m.regs().pc == self.firmware.memory_map.wait
    }

    #[inline(always)]
    fn goes_on_here<M: Mem>(&self, m: &Machine<M>) -> bool {
        m.regs().pc != self.firmware.memory_map.wait
    }

    fn place(&self, post: &Post) -> (u32, u32) {
        (0, post.moment)
    }

    fn take<M: Mem>(&self, m: &mut Machine<M>, post: &Post, moment: u32, notes: &mut Notes<()>) {
        let mut writes = [Write { at: 0, value: 0 }; MOST_WRITES];
        let count = write_post(&self.firmware.memory_map, self.samples, post, &mut writes);
        let frame = m.interrupt(&writes[..count]);
        notes.put(moment, frame, ());
    }
}

impl<'a> SoundForm for MailboxForm<'a> {
    ghost Setting = { Copied };

    ghost Sample = { Unit {0} };

    ghost Request = { plan.Post };

    ghost Told = { Unit {0} };

    ghost form = { λ x. part_form x.flags x.firmware x.samples x.begin };

    ghost marks = { OnStackOnly };

    ghost open_to = { λ _. is_postable };

    ghost holds = { λ x. FactsBeside is_postable x.flags x.firmware };

    ghost good = { λ x. IsGoodPost (length x.samples) };

    ghost own = { λ x. HoldsMail x.firmware.memory_map x.samples x.copied };

    ghost sound = { λ x agree quiet. x.sound agree quiet };
}
