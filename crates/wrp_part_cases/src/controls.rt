//! `pi`: the words are kp, ki and bias of a loop, and the numbers are its errors (`machines`). The DAC value after each
//! is expected.
//!
//! `lock`: the words are threshold, lock and delock of a lock detector, and the numbers are its errors. After each, 1
//! is expected if it is locked, else 0.
use crate::machines::{Machine, answer_of};
use crate::words::number_of;
use std::alloc::Global;
use std::str::FromStr;
use wrp_pi::{LockDet, Pi};
use wrp_suite::{Answer, Case, Fault};

// An error of a loop.
fn error_of(number: i64) -> Result<i32, Fault> {
    i32::try_from(number).ok().ok_or(Fault::Number)
}

impl Machine for Pi {
    // Takes an error of at most `2^20` on either side.
    fn push(&mut self, number: i64) -> Result<i64, Fault> {
        let e = error_of(number)?;
        if e.unsigned_abs() > 1 << 20 {
            return Err(Fault::Condition);
        }
        Ok(i64::from(self.update(e)))
    }

    fn restart(&mut self) {
        self.restart();
    }
}

impl Machine for LockDet {
    fn push(&mut self, number: i64) -> Result<i64, Fault> {
        Ok(i64::from(self.update(error_of(number)?)))
    }

    fn restart(&mut self) {
        self.restart();
    }
}

// The three numbers of a case's words.
fn three<N: FromStr + Drop>(case: &Case) -> Result<[N; 3], Fault>
where
    N::Err: Drop,
{
    match case.words.as_slice() {
        [a, b, c] => Ok([
            number_of(a.as_str())?,
            number_of(b.as_str())?,
            number_of(c.as_str())?,
        ]),
        _ => Err(Fault::Input),
    }
}

/// What a `Pi` answers.
pub fn answer_of_loop(alloc: Global, case: &Case) -> Result<Answer, Fault> {
    let [kp, ki, bias] = three::<u16>(case)?;
    answer_of(alloc, &mut Pi::new(kp, ki, bias), case)
}

/// What a `LockDet` answers.
pub fn answer_of_lock(alloc: Global, case: &Case) -> Result<Answer, Fault> {
    let [threshold, lock, delock] = three::<u32>(case)?;
    if lock <= delock {
        return Err(Fault::Condition);
    }
    answer_of(alloc, &mut LockDet::new(threshold, lock, delock), case)
}
