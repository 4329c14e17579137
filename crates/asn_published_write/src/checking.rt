//! Refuses what the profile does not take of the members of a type: too many of them, and a name of two of them.
use crate::known::Known;
use crate::writer::Writer;
use asn_published_text::nodes::{Holder, MemberKind};
use asn_published_text::refusal::{Refusal, Why, refused};
use asn_published_types::building::Forest;
use asn_published_types::layout::{Layout, Placed};
use asn_published_types::limits::{MOST_ADDITIONS, MOST_ALTERNATIVES, MOST_COMPONENTS, within};
use std::alloc::{AllocError, Global};
use std::collections::HashMap;

/// The name of a member in the profile.
fn name_of(alloc: Global, forest: &Forest<'_>, index: usize) -> Result<String, AllocError> {
    let Some(member) = forest.member(index) else {
        return Ok(String::new(alloc));
    };
    match member.kind {
        MemberKind::Group(number) => format!(in alloc; "ext{number}"),
        _ => String::from_str(alloc, member.name),
    }
}

impl<'t> Writer<'t> {
    /// Refuses more members than the profile takes, at the first that is one too many, and a name of two members, at
    /// the second.
    pub fn check_members(
        &mut self,
        alloc: Global,
        known: &Known<'_, 't>,
        layout: &Layout,
        holder: Holder,
    ) -> Result<(), Refusal> {
        let mut all = Vec::new(alloc);
        all.extend_from_slice(layout.root.as_slice())?;
        all.extend_from_slice(layout.additions.as_slice())?;
        let root = layout.root.as_slice();
        let additions = layout.additions.as_slice();
        if holder == Holder::Choice {
            self.check_count(known, all.as_slice(), "alternatives", MOST_ALTERNATIVES)?;
        } else {
            self.check_count(known, root, "components", MOST_COMPONENTS)?;
            self.check_count(known, additions, "extension additions", MOST_ADDITIONS)?;
        }
        self.check_names(alloc, known, all.as_slice())
    }

    /// Refuses more than `most` members, at the first that is one too many.
    fn check_count(
        &mut self,
        known: &Known<'_, 't>,
        members: &[Placed],
        what: &'static str,
        most: usize,
    ) -> Result<(), Refusal> {
        match members.get(most) {
            Some(placed) => {
                let line = self.go_to(known, placed.member);
                within(line, what, members.len(), most)
            }
            None => Ok(()),
        }
    }

    /// Refuses a name of two members, at the second.
    fn check_names(
        &mut self,
        alloc: Global,
        known: &Known<'_, 't>,
        members: &[Placed],
    ) -> Result<(), Refusal> {
        let mut taken: HashMap<String, ()> = HashMap::new(alloc);
        for placed in members {
            let name = name_of(alloc, known.forest, placed.member)?;
            if taken.insert(name, ())?.is_some() {
                return Err(refused(self.go_to(known, placed.member), Why::NameTaken));
            }
        }
        Ok(())
    }

    /// Goes to the node of a member, where a fault is told from now on, and gives its line.
    fn go_to(&mut self, known: &Known<'_, 't>, index: usize) -> u32 {
        let Some(member) = known.forest.member(index) else {
            return 0;
        };
        self.counts.node = member.node;
        match known.forest.node(member.node) {
            Some(node) => known.line_of(&node),
            None => 0,
        }
    }
}
