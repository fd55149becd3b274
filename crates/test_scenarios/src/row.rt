//! A row: what is run, and what of it is shown.

/// A row: what is run, and what of it is shown.
#[derive(Clone, Copy, Debug)]
pub struct Row<'a> {
    pub command: &'a str,
    /// How many of the first bytes of each captured packet are shown.
    pub shown: usize,
    /// Which call of the store fails, from 1; 0 for none.
    pub fails: u32,
    pub title: &'a str,
    pub scenario: &'a str,
}

/// The row of a text `COMMAND SHOWN FAILS: TITLE`, and a scenario behind it.
pub fn read(text: &str) -> Option<Row> {
    let (head, scenario) = text.split_once('\n')?;
    let (settings, title) = head.split_once(": ")?;
    let (command, numbers) = settings.split_once(' ')?;
    let (shown, fails) = numbers.split_once(' ')?;
    Some(Row {
        command,
        shown: shown.parse().ok()?,
        fails: fails.parse().ok()?,
        title,
        scenario,
    })
}
