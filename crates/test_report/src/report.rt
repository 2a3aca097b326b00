//! What is found, line by line.
ghost use Rattle.std.specs.Prelude.{◌≡◌, ◌&&◌, ◌++◌, false, [], codes, IsTrue, OnOk, bytes_eq, string_bytes};
ghost use Rattle.test_report.specs.Tally.{capped_sum, one_more, with_failure, after_check, is_same};
ghost use Rattle.test_report.specs.Printed.{counts, group_line, failure_line, line_unless};

use crate::told::Told;
use std::alloc::{AllocError, Global};

/// The lines so far, and the counts of the group that is checked and of all.
#[derive(Drop)]
pub struct Report {
    pub alloc: Global,
    pub text: String,
    group: String,
    name: String,
    is_well: bool,
    cases: u64,
    failures: u64,
    all_cases: u64,
    all_failures: u64,
}

impl Report {
    /// A report without a line.
    pub fn new(alloc: Global) -> Report
        ensures text { string_bytes result.text ≡ [] }
        ensures group { string_bytes result.group ≡ [] }
        ensures well { IsTrue result.is_well }
        ensures cases { result.cases ≡ 0 }
        ensures failures { result.failures ≡ 0 }
        ensures all_cases { result.all_cases ≡ 0 }
        ensures all_failures { result.all_failures ≡ 0 }
    {
        Report {
            alloc,
            text: String::new(alloc),
            group: String::new(alloc),
            name: String::new(alloc),
            is_well: true,
            cases: 0,
            failures: 0,
            all_cases: 0,
            all_failures: 0,
        }
    }

    /// The cases from here on belong to this group.
    pub fn enter(&mut self, group: &str) -> Result<(), AllocError>
        ensures group { OnOk result (string_bytes self.new.group ≡ group.now) }
        // no case and no failure is lost between groups
        ensures cases { OnOk result (capped_sum self.new.all_cases self.new.cases ≡ capped_sum self.old.all_cases self.old.cases) }
        ensures failures { OnOk result (capped_sum self.new.all_failures self.new.failures ≡ capped_sum self.old.all_failures self.old.failures) }
        ensures text { OnOk result (string_bytes self.new.text ≡ string_bytes self.old.text ++ line_unless (bytes_eq (string_bytes self.old.group) group.now) (group_line (string_bytes self.old.group) self.old.cases self.old.failures)) }
    {
        if self.group.as_str() != group {
            self.leave()?;
            self.group = String::from_str(self.alloc, group)?;
        }
        Ok(())
    }

    // The line of the group that ends.
    fn leave(&mut self) -> Result<(), AllocError>
        ensures cases { OnOk result (self.new.cases ≡ 0) }
        ensures failures { OnOk result (self.new.failures ≡ 0) }
        ensures all_cases { OnOk result (self.new.all_cases ≡ capped_sum self.old.all_cases self.old.cases) }
        ensures all_failures { OnOk result (self.new.all_failures ≡ capped_sum self.old.all_failures self.old.failures) }
        ensures text { OnOk result (string_bytes self.new.text ≡ string_bytes self.old.text ++ group_line (string_bytes self.old.group) self.old.cases self.old.failures) }
    {
        let cases = self.cases;
        let failures = self.failures;
        if cases > 0 {
            let group = self.group.as_str();
            writeln!(&mut self.text, "{group}: {cases} cases, {failures} failed")?;
        }
        self.all_cases = self.all_cases.saturating_add(cases);
        self.all_failures = self.all_failures.saturating_add(failures);
        self.cases = 0;
        self.failures = 0;
        Ok(())
    }

    /// The last lines.
    pub fn finish(&mut self) -> Result<(), AllocError>
        ensures all_cases { OnOk result (self.new.all_cases ≡ capped_sum self.old.all_cases self.old.cases) }
        ensures all_failures { OnOk result (self.new.all_failures ≡ capped_sum self.old.all_failures self.old.failures) }
        ensures text { OnOk result (string_bytes self.new.text ≡ string_bytes self.old.text ++ group_line (string_bytes self.old.group) self.old.cases self.old.failures ++ counts self.new.all_cases self.new.all_failures) }
    {
        self.leave()?;
        let cases = self.all_cases;
        let failures = self.all_failures;
        writeln!(&mut self.text, "{cases} cases, {failures} failed")
    }

    /// The checks from here on belong to the case of this name.
    pub fn begin(&mut self, name: &str) -> Result<(), AllocError>
        ensures name { OnOk result (string_bytes self.new.name ≡ name.now) }
        ensures well { OnOk result (IsTrue self.new.is_well) }
        ensures cases { OnOk result (self.new.cases ≡ one_more self.old.cases) }
        ensures rest { self.new ≡ record self.old { name = self.new.name; is_well = self.new.is_well; cases = self.new.cases } }
    {
        self.name = String::from_str(self.alloc, name)?;
        self.is_well = true;
        self.cases = self.cases.saturating_add(1);
        Ok(())
    }

    /// The line of a check that failed.
    pub fn fail(&mut self, what: &str, wanted: &str, said: &str) -> Result<(), AllocError>
        ensures well { self.new.is_well ≡ false }
        ensures rest { self.new ≡ record self.old { text = self.new.text; is_well = self.new.is_well; failures = self.new.failures } }
        ensures failures { self.new.failures ≡ with_failure self.old.is_well self.old.failures }
        ensures text { OnOk result (string_bytes self.new.text ≡ string_bytes self.old.text ++ failure_line (string_bytes self.old.name) what.now wanted.now said.now) }
    {
        if self.is_well {
            self.is_well = false;
            self.failures = self.failures.saturating_add(1);
        }
        let name = self.name.as_str();
        writeln!(
            &mut self.text,
            "{name}: {what}: {wanted} is wanted, not {said}"
        )
    }

    /// Checks that the two are the same.
    pub fn compare(&mut self, what: &str, wanted: &str, said: &str) -> Result<(), AllocError>
        ensures well { self.new.is_well ≡ (bytes_eq wanted.now said.now && self.old.is_well) }
        ensures same { IsTrue self.new.is_well → wanted.now ≡ said.now }
        ensures rest { self.new ≡ record self.old { text = self.new.text; is_well = self.new.is_well; failures = self.new.failures } }
        ensures failures { self.new.failures ≡ after_check (bytes_eq wanted.now said.now) self.old.is_well self.old.failures }
        ensures text { OnOk result (string_bytes self.new.text ≡ string_bytes self.old.text ++ line_unless (bytes_eq wanted.now said.now) (failure_line (string_bytes self.old.name) what.now wanted.now said.now)) }
    {
        if wanted == said {
            return Ok(());
        }
        self.fail(what, wanted, said)
    }

    /// Checks a fact.
    pub fn holds(&mut self, what: &str, fact: bool) -> Result<(), AllocError>
        ensures well { self.new.is_well ≡ (fact && self.old.is_well) }
        ensures rest { self.new ≡ record self.old { text = self.new.text; is_well = self.new.is_well; failures = self.new.failures } }
        ensures failures { self.new.failures ≡ after_check fact self.old.is_well self.old.failures }
        ensures text { OnOk result (string_bytes self.new.text ≡ string_bytes self.old.text ++ line_unless fact (failure_line (string_bytes self.old.name) what.now (codes "yes") (codes "no"))) }
    {
        if fact {
            return Ok(());
        }
        self.fail(what, "yes", "no")
    }

    /// Checks that a run ended as is wanted, with that output.
    pub fn compare_runs(&mut self, what: &str, wanted: &Told, said: &Told) -> Result<(), AllocError>
        ensures well { OnOk result (self.new.is_well ≡ (is_same wanted.now said.now && self.old.is_well)) }
        ensures rest { self.new ≡ record self.old { text = self.new.text; is_well = self.new.is_well; failures = self.new.failures } }
        ensures failures { OnOk result (self.new.failures ≡ after_check (is_same wanted.now said.now) self.old.is_well self.old.failures) }
    {
        self.compare(what, wanted.end.as_str(), said.end.as_str())?;
        if wanted.output.as_slice() == said.output.as_slice() {
            return Ok(());
        }
        let alloc = self.alloc;
        let wanted = wanted.shown(alloc)?;
        let said = said.shown(alloc)?;
        self.fail(what, wanted.as_str(), said.as_str())
    }
}
