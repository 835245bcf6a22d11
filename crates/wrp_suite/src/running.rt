//! The run of a program of cases.
use crate::answer::Answer;
use crate::case::Case;
use crate::difference::compare;
use crate::fault::Fault;
use crate::suite::Suite;
use std::alloc::{AllocError, Global};
use std::rt::{Env, Files};
use std::{env, fs, io};

/// The calls that a program of cases can make.
pub trait Kinds {
    /// Makes the call of a case. A word that names none of them is refused with `Fault::Word`; so is a case that is none
    /// of the call's, or whose condition does not hold, with its own fault.
    fn answer(alloc: Global, case: &Case) -> Result<Answer, Fault>;
}

// What the files so far came to: how many cases passed, how many cases and lines failed, and how these differ.
#[derive(Drop)]
struct Run {
    suite: Suite,
    passed: u32,
    failed: u32,
    report: String,
}

// Whether the answer of a case is what is expected; a line of the report says how it differs.
fn passes<K: Kinds>(
    alloc: Global,
    report: &mut String,
    file: &str,
    case: &Case,
) -> Result<bool, AllocError> {
    match K::answer(alloc, case) {
        Ok(came) => compare(report, file, case, &came),
        Err(fault) => {
            let name = case.name.as_str();
            write!(report, "{file}: {name}: {fault}\n")?;
            Ok(false)
        }
    }
}

impl Run {
    // No file yet.
    fn new(alloc: Global) -> Run {
        Run {
            suite: Suite::new(alloc),
            passed: 0,
            failed: 0,
            report: String::new(alloc),
        }
    }

    // Counts a case, or a line that failed.
    fn count(&mut self, is_good: bool) {
        if is_good {
            self.passed = self.passed.saturating_add(1);
        } else {
            self.failed = self.failed.saturating_add(1);
        }
    }

    // Takes a line of a file, and runs the case that ends with it.
    fn take_line<K: Kinds>(
        &mut self,
        alloc: Global,
        file: &str,
        number: u64,
        line: &str,
    ) -> Result<(), AllocError> {
        let is_good = match self.suite.take(alloc, line) {
            Ok(None) => return Ok(()),
            Ok(Some(case)) => passes::<K>(alloc, &mut self.report, file, &case)?,
            Err(fault) => {
                write!(self.report, "{file}:{number}: {fault}\n")?;
                false
            }
        };
        self.count(is_good);
        Ok(())
    }

    // Takes the lines of one file, and runs each case as it ends.
    fn take_file<K: Kinds>(
        &mut self,
        alloc: Global,
        file: &str,
        text: &str,
    ) -> Result<(), AllocError> {
        self.suite.open();
        let mut number = 0u64;
        for line in text.split('\n') {
            number = number.saturating_add(1);
            self.take_line::<K>(alloc, file, number, line)?;
        }
        if !self.suite.is_closed() {
            self.count(false);
            write!(
                self.report,
                "{file}: its closing count is missing, or another\n"
            )?;
        }
        Ok(())
    }
}

// Runs the cases of one file, and reports each that differs.
fn run_file<K: Kinds, R: AllocGlobal + Eprint + Files>(
    rt: &R,
    run: &mut Run,
    file: &str,
) -> io::Result<()> {
    let text = fs::read_to_string(rt, file)?;
    run.take_file::<K>(rt.alloc(), file, text.as_str())?;
    let report = run.report.as_str();
    eprint!(rt; "{report}")?;
    run.report.clear();
    Ok(())
}

/// Runs the cases of the files that the words after the program's name name, in their order. It reports each that
/// differs on standard error, prints `N passed, M failed`, and returns whether some passed and none failed.
pub fn run_files<K: Kinds, R: AllocGlobal + Env + Eprint + Files + Print>(
    rt: &R,
) -> io::Result<bool> {
    let mut run = Run::new(rt.alloc());
    for file in env::args(rt)?.skip(1) {
        run_file::<K, R>(rt, &mut run, file.as_str())?;
    }
    let (passed, failed) = (run.passed, run.failed);
    println!(rt; "{passed} passed, {failed} failed")?;
    Ok(failed == 0 && passed > 0)
}
