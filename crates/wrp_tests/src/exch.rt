//! The exchange beside the definition's plain slow program, after each call of three lists.
ghost use Rattle.std.specs.Prelude.{◌^◌, ◌<◌, unsigned_abs};

mod lookback;

use lookback::Call::{self, Clear, FollowUp, ReqOut, ReqSent, Resp, Sample, Start, Sync};
use lookback::{four, keeps};
use std::test::Fail;
use wrp_base::Stamp;
use wrp_exch::Exchange;

// How many samples are known.
const RING: usize = 2;

// The lists of calls, the oldest first.
const LISTS: [&[Call]; 3] = [
    // a sample that left the ring between the Sync and its Follow_Up
    &[
        Start(1),
        Sample(1, 10),
        ReqOut(3),
        ReqSent(3, 2000, 1, 4),
        Resp(3, 2100),
        Sync(7, 0, 1000, 1, 5),
        Sample(2, 20),
        Sample(3, 30),
        FollowUp(7, 900),
        FollowUp(7, 900),
    ],
    // a request put out while another waits for its answer
    &[
        Start(1),
        Sample(1, 10),
        Sync(7, 0, 1000, 1, 5),
        FollowUp(7, 900),
        ReqOut(3),
        ReqSent(3, 2000, 1, 6),
        ReqOut(4),
        Resp(3, 2100),
        Resp(4, 2200),
        ReqSent(3, 2300, 1, 7),
        ReqSent(4, 2400, 1, 8),
        Resp(4, 2500),
    ],
    // a clear, and a new start
    &[
        Start(1),
        Sample(1, 10),
        Sync(7, 0, 1000, 1, 5),
        FollowUp(7, 900),
        ReqOut(3),
        ReqSent(3, 2000, 1, 6),
        Resp(3, 2100),
        Clear,
        Start(1),
        Sync(8, 0, 1500, 1, 7),
        FollowUp(8, 1400),
        ReqOut(4),
        ReqSent(4, 2500, 1, 8),
        Resp(4, 2600),
    ],
];

// Makes one call. Returns whether its piece was kept.
fn make(exchange: &mut Exchange, call: Call) -> bool {
    match call {
        Start(first) => exchange.start(first),
        Clear => exchange.clear(),
        Sample(number, phase) => exchange.sample(number, phase),
        ReqOut(seq) => exchange.req_out(seq),
        Sync(seq, correction, t2, sample, tick) => {
            return exchange.sync(seq, correction, stamp(t2, sample), tick);
        }
        FollowUp(seq, precise) => return exchange.follow_up(seq, precise.into()),
        ReqSent(seq, t3, sample, tick) => return exchange.req_sent(seq, stamp(t3, sample), tick),
        Resp(seq, t4) => return exchange.resp(seq, t4.into()),
    }
    false
}

fn stamp(value: i64, sample: u32) -> Stamp
    ensures { unsigned_abs result.value < 2 ^ 104 }
{
    Stamp {
        value: value.into(),
        sample,
    }
}

#[test]
fn agrees_with_looking_back(rt: HostRuntime) -> Result<(), Fail> {
    for calls in LISTS {
        let mut exchange = Exchange::new(rt.alloc(), RING)?;
        for at in 0..calls.len() {
            let call = calls[at];
            let kept = make(&mut exchange, call);
            assert_eq!(rt; kept, keeps(RING, &calls[..at], call), "call {at}");
            assert_eq!(rt; exchange.four(), four(RING, &calls[..at + 1]), "call {at}");
        }
    }
    Ok(())
}
