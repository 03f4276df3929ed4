// One number of many replies.
ghost use Rattle.std.specs.Prelude.{◌≡◌};
ghost use Rattle.bench_calls.specs.Digests.{mixed, refused, count_number, top_number, reply_number, load_number, replies_mixed, counts_mixed};

use journal::LoadFault;
use reading::Count;
use runs::Reply;
use summary::Peak;

// A number after those before it.
pub(crate) fn mixed(sum: u64, number: u64) -> u64
    ensures { result ≡ mixed sum number }
{
    sum.wrapping_mul(31).wrapping_add(number)
}

// A refusal by its number.
fn refused(number: u32) -> u64
    ensures { result ≡ refused number }
{
    mixed(4_294_967_296, u64::from(number))
}

fn count_number(x: Count) -> u64
    ensures { result ≡ count_number x }
{
    u64::from(x.value.cast_unsigned())
}

fn peak_number(peak: &Peak<Count>) -> u64
    ensures { result ≡ top_number peak.now.length.value peak.now.highest }
{
    let length = u64::from(peak.length.value);
    match peak.highest {
        None => length,
        Some(top) => mixed(
            mixed(length, u64::from(top.place.value)),
            count_number(top.reading),
        ),
    }
}

fn reply_number(reply: &Reply<Count, Peak<Count>>) -> u64
    ensures { result ≡ reply_number reply.now }
{
    match reply {
        Reply::Edited(Ok(x)) => mixed(u64::from(x.version), u64::from(x.written)),
        Reply::Edited(Err(fault)) => refused(fault.number()),
        Reply::Read(Ok(x)) => mixed(u64::from(x.path), count_number(x.reading)),
        Reply::Read(Err(fault)) => refused(fault.number()),
        Reply::Spanned(Ok(n)) => u64::from(*n),
        Reply::Spanned(Err(fault)) => refused(fault.number()),
        Reply::Summed(Ok(peak)) => peak_number(peak),
        Reply::Summed(Err(fault)) => refused(fault.number()),
    }
}

// How a load ended.
pub(crate) fn load_number(answer: Result<u32, LoadFault>) -> u64
    ensures { result ≡ load_number answer }
{
    match answer {
        Ok(versions) => u64::from(versions),
        Err(stop) => refused(stop.fault.number()),
    }
}

pub(crate) fn replies_mixed(sum: u64, replies: &[Reply<Count, Peak<Count>>]) -> u64
    ensures { result ≡ replies_mixed sum replies.now }
{
    replies
        .iter()
        .fold(sum, |sum, reply| mixed(sum, reply_number(reply)))
}

pub(crate) fn counts_mixed(sum: u64, counts: &[Count]) -> u64
    ensures { result ≡ counts_mixed sum counts.now }
{
    counts
        .iter()
        .fold(sum, |sum, x| mixed(sum, count_number(*x)))
}
