// Calls that no box links, for rust/trial alone: functions that the calls for C do not go through, so that these too are compiled and run. The desk is over a lent row of places, and a message's content is the slice that `content` returns.
#![tactic(auto)]

ghost use Rattle.std.specs.Prelude.{◌≡◌};
ghost use Rattle.format.specs.Promises.{Packs};
ghost use Rattle.format.specs.Refusals.{packed, told_of};
ghost use Rattle.places.specs.Desk.{refusal_of};
ghost use Rattle.places.specs.Replies.{replied};
ghost use Rattle.desk_bytes.specs.Promises.{again_of, count_of, language_of};
ghost use Rattle.c_trial.specs.Promises.{noted_within, AcceptsRow, AsksRow, DropsRow, txsq_content, txxx_content, packet_content, Copies};

use format::{Refusal, packed};
use places::{Place, Reply};

// ---- the desk: what a reply says besides its refusal goes to three numbers: whether the packet came again, how many bytes are handed out or how many numbers are missing, the language

const SAID: usize = 3;

// A packet comes in.
#[unsafe(no_mangle)]
pub extern "C" fn trial_desk_accept(
    said: &mut [usize],
    places: &mut [Place],
    store: &mut [u8],
    packet: &[u8],
) -> u32
    ensures { Packs (λ refusal. AcceptsRow said.old places.old store.old packet.now refusal said.new places.new store.new) result }
{
    let accepted = desk::accept(places, store, packet);
    tell(said, accepted)
}

// A notice is asked for.
#[unsafe(no_mangle)]
pub extern "C" fn trial_desk_ask(
    said: &mut [usize],
    places: &mut [Place],
    store: &[u8],
    number: u8,
    notice: &mut [u8],
    missing: &mut [u16],
) -> u32
    ensures { Packs (λ refusal. AsksRow said.old places.old store.now number notice.old missing.old refusal said.new places.new notice.new missing.new) result }
{
    let asked = desk::ask(places, store, number, notice, missing);
    tell(said, asked)
}

// A notice is dropped.
#[unsafe(no_mangle)]
pub extern "C" fn trial_desk_drop(
    said: &mut [usize],
    places: &mut [Place],
    store: &[u8],
    number: u8,
) -> u32
    ensures { Packs (λ refusal. DropsRow said.old places.old store.now number refusal said.new places.new) result }
{
    let dropped = desk::drop(places, store, number);
    tell(said, dropped)
}

// What is told of the answer, packed into one number. What else it says goes to the numbers, where there are three.
fn tell(said: &mut [usize], answer: Result<Reply, Refusal>) -> u32
    ensures { (result ≡ packed (refusal_of (replied answer))) × (said.new ≡ noted_within (replied answer) said.old) }
{
    if said.len() < SAID {
        return packed(told(answer));
    }
    said[0] = again_of(answer, said[0]);
    said[1] = count_of(answer, said[1]);
    said[2] = language_of(answer, said[2]);
    packed(told(answer))
}

fn told(answer: Result<Reply, Refusal>) -> Result<(), Refusal>
    ensures { told_of result ≡ refusal_of (replied answer) }
{
    answer?.told()
}

fn again_of(answer: Result<Reply, Refusal>, before: usize) -> usize
    ensures { result ≡ again_of (replied answer) before }
{
    match answer {
        Ok(Reply::Done) => 0,
        Ok(Reply::Again) => 1,
        _ => before,
    }
}

fn count_of(answer: Result<Reply, Refusal>, before: usize) -> usize
    ensures { result ≡ count_of (replied answer) before }
{
    match answer {
        Ok(Reply::Joined(n, _) | Reply::Missing(n)) => n,
        _ => before,
    }
}

fn language_of(answer: Result<Reply, Refusal>, before: usize) -> usize
    ensures { result ≡ language_of (replied answer) before }
{
    match answer {
        Ok(Reply::Joined(_, language)) => usize::from(language),
        _ => before,
    }
}

// ---- contents: copied to the front of the lent bytes, where they fit; how many bytes there are

#[unsafe(no_mangle)]
pub extern "C" fn trial_txsq_content(frame: &[u8], bytes: &mut [u8]) -> usize
    ensures { Copies (txsq_content frame.now) bytes.old result bytes.new }
{
    let content = txsq::content(frame);
    copied(bytes, content)
}

#[unsafe(no_mangle)]
pub extern "C" fn trial_txxx_content(frame: &[u8], bytes: &mut [u8]) -> usize
    ensures { Copies (txxx_content frame.now) bytes.old result bytes.new }
{
    let content = txxx::content(frame);
    copied(bytes, content)
}

#[unsafe(no_mangle)]
pub extern "C" fn trial_packet_content(packet: &[u8], bytes: &mut [u8]) -> usize
    ensures { Copies (packet_content packet.now) bytes.old result bytes.new }
{
    let content = packet::content(packet);
    copied(bytes, content)
}

fn copied(bytes: &mut [u8], content: &[u8]) -> usize
    ensures { Copies content.now bytes.old result bytes.new }
{
    places::lay(bytes, 0, content);
    content.len()
}
