//! What is counted of the messages of a job.
use asn_jobs::{CountFault, RuleName, Sizes, Tally};
use asn_oer::Oer;
use asn_per::Per;
use asn_rules::{DecodeFault, decode};
use asn_values::Checked;
use asn_view::Viewed;
use std::alloc::{AllocError, Global};

/// What is counted of messages: how long they are, how many there are of each alternative of a CHOICE, and how many are
/// refused, and why.
#[derive(Drop)]
pub struct Counts {
    sizes: Sizes,
    alternatives: Tally,
    refused: u64,
    reasons: Tally,
}

impl Counts {
    /// The counts of no message.
    pub fn new(alloc: Global) -> Counts {
        Counts {
            sizes: Sizes::new(),
            alternatives: Tally::new(alloc),
            refused: 0,
            reasons: Tally::new(alloc),
        }
    }

    /// Counts a message.
    ///
    /// # Errors
    /// `Full` where a count would be more than 2^64 - 1, `Memory` where an allocation failed.
    pub fn add_message(
        &mut self,
        alloc: Global,
        ty: &Checked,
        rules: RuleName,
        octets: &[u8],
    ) -> Result<(), CountFault> {
        self.sizes = self.sizes.with(octets.len() as u64)?;
        let read = match rules {
            RuleName::Per => decode::<Per>(alloc, ty, octets),
            RuleName::Oer => decode::<Oer>(alloc, ty, octets),
        };
        match read {
            Ok(value) => match ty.view(&value).alternative() {
                Some((name, _)) => self.alternatives.add(alloc, name),
                None => Ok(()),
            },
            Err(DecodeFault::Memory) => Err(CountFault::Memory),
            Err(_) => Ok(()),
        }
    }

    /// Counts a message that was answered with this refusal.
    ///
    /// # Errors
    /// `Full` where a count would be more than 2^64 - 1, `Memory` where an allocation failed.
    pub fn add_refusal(&mut self, alloc: Global, refusal: &str) -> Result<(), CountFault> {
        let Some(refused) = self.refused.checked_add(1) else {
            return Err(CountFault::Full);
        };
        self.refused = refused;
        self.reasons.add(alloc, reason_of(refusal))
    }

    /// The counts, one a line.
    ///
    /// # Errors
    /// `AllocError` where an allocation failed.
    pub fn text(&self, alloc: Global) -> Result<String, AllocError> {
        let Sizes {
            count,
            octets,
            least,
            greatest,
        } = self.sizes;
        let mut text = format!(in alloc;
            "messages: {count}\noctets: {octets}\nleast: {least}\ngreatest: {greatest}\n"
        )?;
        push_counts(alloc, &mut text, "alternative", &self.alternatives)?;
        let refused = self.refused;
        let line = format!(in alloc; "refused: {refused}\n")?;
        text.push_str(line.as_str())?;
        push_counts(alloc, &mut text, "refused", &self.reasons)?;
        Ok(text)
    }
}

/// Puts a line for each word of a tally at the end of the text.
fn push_counts(
    alloc: Global,
    text: &mut String,
    what: &str,
    tally: &Tally,
) -> Result<(), AllocError> {
    for (word, count) in tally.counts() {
        let line = format!(in alloc; "{what} {word}: {count}\n")?;
        text.push_str(line.as_str())?;
    }
    Ok(())
}

/// The reason in a refusal: without the mark, and without where it is.
fn reason_of(refusal: &str) -> &str {
    let words = match refusal.strip_prefix("! ") {
        Some(words) => words,
        None => refusal,
    };
    match words.split_once(": ") {
        Some((place, reason)) if place.starts_with("refused") => reason,
        Some((reason, _)) => reason,
        None => match words.split_once(" after ") {
            Some((reason, _)) => reason,
            None => words,
        },
    }
}
