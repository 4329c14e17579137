//! What a name stands for in a module: an assignment there, or of the module that it is imported from.
ghost use Rattle.std.specs.Prelude.{◌≡◌, ◌<◌, ℕ, option_copied, slice_get};
ghost use Rattle.asn_published_text.specs.Modules.{StandIn, text_of};

use crate::modules::{Assignment, What, World};
use crate::refusal::Why;
use crate::token::Sign;
use crate::tokens::{Tokens, next};

/// How often a name may be imported and passed on.
const MOST_IMPORTS: u32 = 16;

impl<'t> World<'t> {
    /// The lexical items of the text that has a module; `None` where there is no such module.
    pub fn tokens_of(&self, module: usize) -> Option<&Tokens<'t>> {
        match self.modules.get(module) {
            Some(text) => self.files.get(text.file),
            None => None,
        }
    }

    /// The index of the assignment that a name refers to in a module.
    pub fn find(&self, module: usize, name: &str) -> Result<usize, Why> {
        let mut at = module;
        for _ in 0..MOST_IMPORTS {
            let Some(text) = self.modules.get(at) else {
                return Err(Why::Unknown);
            };
            if let Some(index) = text.names.get(name) {
                return Ok(*index);
            }
            let source = match text.imports.get(name) {
                Some(Some(source)) => *source,
                Some(None) => return Err(Why::ImportedTwice),
                None => return Err(Why::Unknown),
            };
            match self.module_names.get(source) {
                Some(index) => at = *index,
                None => return Err(Why::NotGiven),
            }
        }
        Err(Why::Unknown)
    }

    /// The assignment that `Module.name` refers to.
    pub fn find_in(&self, module: &str, name: &str) -> Result<usize, Why> {
        match self.module_names.get(module) {
            Some(index) => self.find(*index, name),
            None => Err(Why::NotGiven),
        }
    }

    /// What a reference at `at` refers to, as `name` or `Module.name`, and the index after it.
    pub fn reference_at(&self, module: usize, at: usize) -> Result<(usize, usize), Why> {
        let Some(tokens) = self.tokens_of(module) else {
            return Err(Why::Unknown);
        };
        if tokens.is_capital(at) && tokens.is(next(at), Sign::Dot) {
            let name = next(next(at));
            let found = self.find_in(tokens.text(at), tokens.text(name))?;
            return Ok((found, next(name)));
        }
        let found = self.find(module, tokens.text(at))?;
        Ok((found, next(at)))
    }

    /// The assignment of an index; `None` where there is none.
    pub fn assignment(&self, index: usize) -> Option<&Assignment<'t>>
        ensures { option_copied result ≡ slice_get self.now.assignments.items index }
    {
        self.assignments.get(index)
    }

    /// Whether the assignment assigns this kind of thing.
    pub fn assigns(&self, index: usize, what: What) -> bool {
        match self.assignments.get(index) {
            Some(assignment) => assignment.what == what,
            None => false,
        }
    }

    /// Which text has an assignment, from 0; 0 where there is no such assignment.
    pub fn text_of(&self, assignment: usize) -> usize
        ensures text { result ≡ text_of self.now.assignments.items self.now.modules.items assignment }
        ensures one { (texts : ℕ) → 0 < texts → StandIn texts self.now.modules.items → result < texts }
    {
        match self.assignment(assignment) {
            Some(it) => match self.modules.get(it.module) {
                Some(module) => module.file,
                None => 0,
            },
            None => 0,
        }
    }
}
