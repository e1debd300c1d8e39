//! One worked script.
use crate::failing::Failing;
use crate::hexadecimal::{bytes_of, push_digits};
use anyhow::{Context, Result};
use std::alloc::Global;
use std::thread::Threads;
use xr_run::{MemSink, MemStore, NoGate, Store, exit_number, run};
use xr_types::TextBytes;

// Room for the files that a script has and writes, and for what it prints.
const ROOM: u64 = 65_536;

// A file that is there.
#[derive(Drop)]
struct File {
    name: String,
    bytes: Vec<u8>,
}

/// A script, the words of the command, the files that it finds, those that are shown in the end, and the calls that fail.
#[derive(Drop)]
pub struct Row {
    script: String,
    words: Option<Vec<TextBytes>>,
    files: Vec<File>,
    shown: Vec<TextBytes>,
    failing: Failing,
}

impl Row {
    pub fn new(alloc: Global) -> Row {
        Row {
            script: String::new(alloc),
            words: None,
            files: Vec::new(alloc),
            shown: Vec::new(alloc),
            failing: Failing::none(alloc),
        }
    }

    /// Takes a line below the title. A file without bytes has those of the row above all titles.
    pub fn take(&mut self, alloc: Global, line: &str, above: &Row) -> Result<()> {
        if let Some(text) = line.strip_prefix("> ") {
            self.push_times(text, "\n", 1)?;
        } else if let Some(rest) = line.strip_prefix("* ") {
            let (times, text) = counted(rest)?;
            self.push_times(text, "\n", times)?;
        } else if let Some(rest) = line.strip_prefix("+ ") {
            let (times, text) = counted(rest)?;
            self.push_times(text, "", times)?;
        } else if let Some(name) = line.strip_prefix("show ") {
            self.shown.push(TextBytes::from_str(alloc, name)?)?;
        } else if let Some(file) = line.strip_prefix("file ") {
            self.files.push(above.file(alloc, file)?)?;
        } else if let Some(word) = line.strip_prefix("word ") {
            self.push_word(alloc, word)?;
        } else if line == "no word" {
            self.words = Some(Vec::new(alloc));
        } else if let Some(call) = line.strip_prefix("fails ") {
            self.failing.take(call)?;
        }
        Ok(())
    }

    fn push_times(&mut self, text: &str, end: &str, times: u64) -> Result<()> {
        for _ in 0..times {
            self.script.push_str(text)?;
            self.script.push_str(end)?;
        }
        Ok(())
    }

    fn push_word(&mut self, alloc: Global, word: &str) -> Result<()> {
        let mut words = self.words.take().unwrap_or(Vec::new(alloc));
        words.push(TextBytes::from_str(alloc, word)?)?;
        self.words = Some(words);
        Ok(())
    }

    // The file that `NAME HEX` gives, or the one of this row that `NAME` names.
    fn file(&self, alloc: Global, text: &str) -> Result<File> {
        let (name, bytes) = match text.split_once(" ") {
            Some((name, digits)) => (name, bytes_of(alloc, digits)?),
            None => {
                let mut files = self.files.iter();
                let file = files.find(|file| file.name.as_str() == text);
                let bytes = &file.context("no bytes of a file")?.bytes;
                (text, Vec::from_slice(alloc, bytes.as_slice())?)
            }
        };
        let name = String::from_str(alloc, name)?;
        Ok(File { name, bytes })
    }

    /// Runs the script: what it prints, its exit number, its line on the error sink, and the bytes of the files that are shown.
    pub fn end<R: Threads + Sync>(&self, rt: &R, alloc: Global) -> Result<Vec<u8>> {
        let mut store = self.store(alloc)?;
        let mut out = sink(alloc, &self.failing.output)?;
        let mut err = sink(alloc, &self.failing.error)?;
        let usual = usual_words(alloc)?;
        let words = match &self.words {
            Some(words) => words.as_slice(),
            None => usual.as_slice(),
        };
        let status = run(rt, alloc, words, &mut store, &mut out, &mut err, &NoGate);
        let mut text = Vec::from_slice(alloc, out.taken())?;
        let exit = format!(in alloc; "exit {}\n", exit_number(&status))?;
        text.extend_from_slice(exit.as_bytes())?;
        text.extend_from_slice(err.taken())?;
        for name in &self.shown {
            push_file(&mut text, name, store.bytes_of(name))?;
        }
        Ok(text)
    }

    // A store of the files and of the script, which take its first puts.
    fn store(&self, alloc: Global) -> Result<MemStore> {
        let store = MemStore::new(alloc, &[], ROOM, &self.failing.store);
        let mut store = store.ok().context("no memory")?;
        for file in &self.files {
            put(&mut store, alloc, file.name.as_str(), &file.bytes)?;
        }
        put(&mut store, alloc, "s.xrs", self.script.as_bytes())?;
        Ok(store)
    }
}

// The number and the text of `N TEXT`.
fn counted(text: &str) -> Result<(u64, &str)> {
    let (times, text) = text.split_once(" ").context("no number of times")?;
    let times = times.parse::<u64>().ok().context("no number of times")?;
    Ok((times, text))
}

fn usual_words(alloc: Global) -> Result<Vec<TextBytes>> {
    let mut words = Vec::new(alloc);
    words.push(TextBytes::from_str(alloc, "xrs")?)?;
    words.push(TextBytes::from_str(alloc, "s.xrs")?)?;
    Ok(words)
}

fn put(store: &mut MemStore, alloc: Global, name: &str, bytes: &[u8]) -> Result<()> {
    let name = TextBytes::from_str(alloc, name)?;
    store.put(&name, bytes).ok().context("no room for a file")
}

fn sink(alloc: Global, failing: &[u64]) -> Result<MemSink> {
    MemSink::new(alloc, ROOM, failing).ok().context("no memory")
}

// A line with the bytes of a file that is shown.
fn push_file(text: &mut Vec<u8>, name: &TextBytes, bytes: Option<&[u8]>) -> Result<()> {
    text.extend_from_slice(b"file ")?;
    text.extend_from_slice(name.as_bytes())?;
    text.extend_from_slice(b" ")?;
    match bytes {
        Some(bytes) => push_digits(text, bytes)?,
        None => text.extend_from_slice(b"absent")?,
    }
    text.extend_from_slice(b"\n")?;
    Ok(())
}
