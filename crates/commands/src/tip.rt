//! What to type in the place of words that the command line hasn't.

/// What to type in the place of these words, as a line with its line end, where they are some that are often typed.
pub(crate) fn tip(words: &[&str]) -> &'static str {
    match words {
        ["help", ..] => {
            "tip: qbec --help shows the commands, and qbec COMMAND --help what one of them takes\n"
        }
        ["-v" | "version" | "-version", ..] => "tip: qbec --version shows the version\n",
        ["compile" | "-o", ..] => "tip: qbec build -o OUT FILE... compiles texts\n",
        ["build", rest @ ..] if any_output(rest) => {
            "tip: the executable file to write stands behind -o\n"
        }
        ["check" | "symbols" | "stack" | "trace", rest @ ..] if any_explain(rest) => {
            "tip: this command says why without --explain\n"
        }
        _ => "",
    }
}

fn any_explain(words: &[&str]) -> bool {
    words.iter().any(|word| *word == "--explain")
}

/// Whether one of the words is an option for the output that other compilers have.
fn any_output(words: &[&str]) -> bool {
    let mut words = words.iter();
    words.any(|word| *word == "--output" || *word == "--out" || word.starts_with("--output="))
}
