//! A case: its lines are executed one by one, and each difference is reported.
use crate::fault::CaseFault;
use crate::machine::CaseMachine;
use crate::step::CaseStep;
use crate::words::{Words, are_alike, split};
use std::alloc::Global;
use std::fmt::Write;

/// The report of a case.
#[derive(Drop)]
pub struct CaseReport {
    /// The text.
    pub text: String,
    // The prefix of each of its lines.
    name: String,
    traces: bool,
    looks: u32,
    differ: u32,
}

/// Executes a case, and returns its report and whether all values were as expected.
pub fn carry_out(alloc: Global, name: &str, case: &str) -> Result<(String, bool), CaseFault> {
    let mut report = CaseReport::new(alloc, name)?;
    let mut machine = CaseMachine::new(alloc)?;
    for (line, number) in case.lines().zip(1u32..) {
        let bare = match line.split_once('#') {
            Some((head, _)) => head,
            None => line,
        };
        report.step(&mut machine, number, bare)?;
    }
    report.close()?;
    let CaseReport { text, differ, .. } = report;
    Ok((text, differ == 0))
}

impl CaseReport {
    fn new(alloc: Global, name: &str) -> Result<CaseReport, CaseFault> {
        Ok(CaseReport {
            text: String::new(alloc),
            name: String::from_str(alloc, name)?,
            traces: false,
            looks: 0,
            differ: 0,
        })
    }

    // Executes a line. A line that can't be executed counts as one that differs.
    fn step(
        &mut self,
        machine: &mut CaseMachine,
        number: u32,
        line: &str,
    ) -> Result<(), CaseFault> {
        let (head, tail) = match line.split_once('=') {
            Some((head, tail)) => (head, Some(tail)),
            None => (line, None),
        };
        let words = match split(head) {
            Ok(words) => words,
            Err(fault) => return self.fault(number, fault),
        };
        let mut words = Words::new(words.as_slice());
        let Some(first) = words.next() else {
            return Ok(());
        };
        if first == "trace" {
            self.traces = true;
            return Ok(());
        }
        let head = head.trim();
        match self.step_of(machine, number, (first, head, tail), &mut words) {
            Err(CaseFault::NoMemory) => Err(CaseFault::NoMemory),
            Err(fault) => self.fault(number, fault),
            Ok(()) => Ok(()),
        }
    }

    // Executes the step that the first word of a line names.
    fn step_of(
        &mut self,
        machine: &mut CaseMachine,
        number: u32,
        (first, head, tail): (&str, &str, Option<&str>),
        words: &mut Words<'_>,
    ) -> Result<(), CaseFault> {
        let step = CaseStep::of_word(first).ok_or(CaseFault::Wanted("a step's name"))?;
        let Some(tail) = tail else {
            return self.deed(machine, number, (step, head), words);
        };
        let wanted = split(tail)?;
        let wanted = wanted.as_slice();
        let mut came = String::new(machine.alloc);
        look(machine, step, words, wanted.len(), &mut came)?;
        words.end()?;
        self.compare(number, (head, tail, &came))?;
        self.turns(machine)
    }

    // Executes a line that expects no value.
    fn deed(
        &mut self,
        machine: &mut CaseMachine,
        number: u32,
        (step, head): (CaseStep, &str),
        words: &mut Words<'_>,
    ) -> Result<(), CaseFault> {
        match step {
            CaseStep::Set(setting) => machine.set(setting, words)?,
            CaseStep::Do(deed) => machine.act(deed, words)?,
            CaseStep::Move(change) => machine.change(change, words)?,
            _ => return Err(CaseFault::Wanted("`=` and what is expected")),
        }
        words.end()?;
        if self.traces {
            let name = &self.name;
            writeln!(self.text, "{name}:{number}: {head}")?;
        }
        Ok(())
    }

    // Compares the actual value with the expected one.
    fn compare(
        &mut self,
        number: u32,
        (head, tail, came): (&str, &str, &str),
    ) -> Result<(), CaseFault> {
        self.looks = self.looks.saturating_add(1);
        let name = &self.name;
        if !are_alike(tail, came)? {
            self.differ = self.differ.saturating_add(1);
            let (wanted, came) = (tail.trim(), came.trim());
            writeln!(
                self.text,
                "{name}:{number}: {head} = {wanted} was expected, {came} came"
            )?;
        } else if self.traces {
            writeln!(self.text, "{name}:{number}: {head} = {}", came.trim())?;
        }
        Ok(())
    }

    // Writes the turns that were run, if they are traced.
    fn turns(&mut self, machine: &mut CaseMachine) -> Result<(), CaseFault> {
        if self.traces {
            self.text.push_str(&machine.turns)?;
        }
        machine.turns.clear();
        Ok(())
    }

    fn fault(&mut self, number: u32, fault: CaseFault) -> Result<(), CaseFault> {
        self.looks = self.looks.saturating_add(1);
        self.differ = self.differ.saturating_add(1);
        let name = &self.name;
        writeln!(self.text, "{name}:{number}: {fault}")?;
        Ok(())
    }

    // Writes the last line. A case that expects nothing would always pass, so it counts as one that differs.
    fn close(&mut self) -> Result<(), CaseFault> {
        let CaseReport {
            text,
            name,
            looks,
            differ,
            ..
        } = self;
        if *looks == 0 {
            *differ = 1;
            writeln!(text, "{name}: no line expects anything")?;
        } else if *differ == 0 {
            writeln!(text, "{name}: {looks} lines as expected")?;
        } else {
            writeln!(text, "{name}: {looks} lines, {differ} differ")?;
        }
        Ok(())
    }
}

// Executes a line that expects a value, and writes the actual value.
fn look(
    machine: &mut CaseMachine,
    step: CaseStep,
    words: &mut Words<'_>,
    wanted: usize,
    came: &mut String,
) -> Result<(), CaseFault> {
    match step {
        CaseStep::Run(work) => machine.run(work, words, wanted, came),
        CaseStep::Show(sight) => machine.show(sight, came),
        CaseStep::Find(place) => machine.find(place, words, wanted, came),
        CaseStep::Open(hold) => machine.open(hold, words, came),
        _ => Err(CaseFault::Wanted("a line without `=`")),
    }
}
