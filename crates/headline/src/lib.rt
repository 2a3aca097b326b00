//! # The theorem that joins the layers
//!
//! Where each function's layers keep it, the machine keeps the program (`specs/Knot`, `Functions`, `Whole`). In the executable of a placed program the start code, `write`,
//! `exit` and the data are what is owed (`specs/Executables`), so that where words stand for each function, the machine executes the program from every start
//! (`specs/Compiled`, [`laws::compiled_programs_run`]). What executing means is the record `Executes` of `specs/Headline`.
//! Of a machine that executes a program, [`laws::runs_answer`] says what each of its runs answers (`specs/Answered`), and [`laws::endless_programs_run_on`] what
//! becomes of a program that never ends (`specs/Answered`).
#![tactic(auto)]

pub mod laws;
