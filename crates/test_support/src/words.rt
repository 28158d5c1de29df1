use std::alloc::{AllocError, Global};

fn add_line(alloc: Global, words: &mut Vec<String>, line: &str) -> Result<(), AllocError> {
    for word in line.split(' ') {
        words.push(String::from_str(alloc, word)?)?;
    }
    Ok(())
}

/// Returns the arguments of a command line, which are separated by single blanks; an empty line has none.
pub fn line_words(alloc: Global, line: &str) -> Result<Vec<String>, AllocError> {
    let mut words = Vec::new(alloc);
    if !line.is_empty() {
        add_line(alloc, &mut words, line)?;
    }
    Ok(words)
}
