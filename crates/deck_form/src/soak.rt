//! The script that a number makes: a mix of commands of eight sessions on the files of one volume.

ghost use Rattle.std.specs.Prelude.{◌≡◌, ◌+◌, ◌<◌, ◌++◌, [], ◌∷◌, true, codes, decimal, IfOk, OnOk};
ghost use Rattle.vfs_base.specs.declared.deck.Act.TheVariants as act;
ghost use Rattle.vfs_base.specs.declared.entry.Who.TheVariants as who;
ghost use Rattle.vfs_model.specs.Soak.{chosen_line, draw, drawn, soak_deck, soak_file, soak_line};

use std::alloc::Global;
use vfs_base::{Act, Bytes, Deck, List, NoMemory, RowId, SessionId, Who, copy_bytes, push_number};

/// The script of a seed: lines that mount the volume `sd0` at `/v`, and so many lines behind them.
///
/// The lines are chosen by a linear congruential generator, which the seed starts.
#[tactic(auto, unfolding(vfs_model::specs::Soak::soak_deck))]
pub fn soak_deck(alloc: Global, seed: u32, steps: u32) -> Result<Deck, NoMemory>
    ensures { IfOk result (λ deck. deck ≡ soak_deck seed steps) }
{
    let mut generator = Generator { state: seed };
    let mut acts = List::new(alloc);
    acts.push(post(alloc, SessionId::FIRST, b"mkdir /v")?)?;
    acts.push(post(alloc, SessionId::FIRST, b"mount sd0 /v cell")?)?;
    for at in 0..steps {
        acts.push(generator.next_line(alloc, at + 1)?)?;
    }
    Ok(Deck {
        roms: List::new(alloc),
        acts,
    })
}

// A generator of lines.
#[derive(Drop)]
struct Generator {
    state: u32,
}

impl Generator {
    // The next number, 0 to 32,767.
    fn draw(&mut self) -> u32
        ensures state { self.new.state ≡ drawn self.old.state }
        ensures value { result ≡ draw self.new.state }
    {
        let next = (1_103_515_245 * u64::from(self.state) + 12_345) % 0x8000_0000;
        self.state = next as u32;
        self.state / 65_536
    }

    // The line of this number.
    fn next_line(&mut self, alloc: Global, number: u32) -> Result<Act, NoMemory>
        ensures { IfOk result (λ line. soak_line self.old.state number
            ≡ record { line = line; state = self.new.state }) }
    {
        let k = SessionId::new((1 + self.draw() % 8) as u8).unwrap();
        let choice = self.draw() % 10;
        let file = self.draw() % 16;
        self.chosen_line(alloc, number, k, choice, file)
    }

    // The line of this number, by its session, the choice of a command and the number of a file.
    fn chosen_line(
        &mut self,
        alloc: Global,
        number: u32,
        k: SessionId,
        choice: u32,
        file: u32,
    ) -> Result<Act, NoMemory>
        requires { file < 16 }
        ensures { IfOk result (λ line. chosen_line self.old.state number k choice file
            ≡ record { line = line; state = self.new.state }) }
    {
        match choice {
            0 => echo_line(alloc, k, number, file),
            1 => file_line(alloc, k, b"cat ", file, b""),
            2 => file_line(alloc, k, b"rm ", file, b""),
            3 => rename_line(alloc, k, file, self.draw() % 16),
            4 => file_line(alloc, k, b"open ", file, b" rw,creat"),
            5 => counted_line(alloc, k, b"write 3 x ", 1 + self.draw() % 8192),
            6 => counted_line(alloc, k, b"read 3 ", 1 + self.draw() % 8192),
            7 => post(alloc, k, b"close 3"),
            8 => post(alloc, k, b"ls /v"),
            _ => worker_line(alloc, file),
        }
    }
}

fn post(alloc: Global, k: SessionId, text: &[u8]) -> Result<Act, NoMemory>
    ensures { IfOk result (λ line. line ≡ act.Post k text.now true) }
{
    let text = copy_bytes(alloc, text)?;
    Ok(Act::Post { k, text, go: true })
}

// Appends the path of a file.
fn push_file(out: &mut Bytes, file: u32) -> Result<(), NoMemory>
    ensures { OnOk result (out.new ≡ out.old ++ soak_file file) }
{
    out.extend_from_slice(b"/v/f")?;
    push_number(out, u64::from(file))
}

fn file_line(
    alloc: Global,
    k: SessionId,
    before: &[u8],
    file: u32,
    behind: &[u8],
) -> Result<Act, NoMemory>
    ensures { IfOk result (λ line. line
        ≡ act.Post k (before.now ++ soak_file file ++ behind.now) true) }
{
    let mut text = copy_bytes(alloc, before)?;
    push_file(&mut text, file)?;
    text.extend_from_slice(behind)?;
    Ok(Act::Post { k, text, go: true })
}

fn echo_line(alloc: Global, k: SessionId, number: u32, file: u32) -> Result<Act, NoMemory>
    ensures { IfOk result (λ line. line
        ≡ act.Post k (codes "echo t" ++ decimal number ++ codes " " ++ soak_file file) true) }
{
    let mut text = copy_bytes(alloc, b"echo t")?;
    push_number(&mut text, u64::from(number))?;
    text.push(b' ')?;
    push_file(&mut text, file)?;
    Ok(Act::Post { k, text, go: true })
}

fn rename_line(alloc: Global, k: SessionId, old: u32, new: u32) -> Result<Act, NoMemory>
    ensures { IfOk result (λ line. line
        ≡ act.Post k (codes "mv " ++ soak_file old ++ codes " " ++ soak_file new) true) }
{
    let mut text = copy_bytes(alloc, b"mv ")?;
    push_file(&mut text, old)?;
    text.push(b' ')?;
    push_file(&mut text, new)?;
    Ok(Act::Post { k, text, go: true })
}

fn counted_line(alloc: Global, k: SessionId, before: &[u8], count: u32) -> Result<Act, NoMemory>
    ensures { IfOk result (λ line. line ≡ act.Post k (before.now ++ decimal count) true) }
{
    let mut text = copy_bytes(alloc, before)?;
    push_number(&mut text, u64::from(count))?;
    Ok(Act::Post { k, text, go: true })
}

// The worker's two steps of the slot of a file.
fn worker_line(alloc: Global, file: u32) -> Result<Act, NoMemory>
    requires { file < 16 }
    ensures { IfOk result (λ line. line
        ≡ act.Events (who.Flush (1 + file) ∷ who.Reclaim (1 + file) ∷ [])) }
{
    let row = RowId::new((1 + file) as u16).unwrap();
    let mut list = List::new(alloc);
    list.push(Who::Flush { row })?;
    list.push(Who::Reclaim { row })?;
    Ok(Act::Events { list })
}
