//! The names of a module's types.
ghost use Rattle.std.specs.Prelude.{◌≡◌, map};
ghost use Rattle.std.specs.Iterator.{YieldsFirstBy, item_count};
ghost use Rattle.asn_module.specs.ModuleView.{types_view};
ghost use Rattle.asn_module.specs.TypeNames.{name_seen, left_names};

use crate::known::Named;
use crate::module::Module;

/// The names that a module assigns, which are left.
#[derive(Debug, Drop)]
pub struct TypeNames<'a> {
    left: &'a [Named],
}

impl<'a> Iterator for TypeNames<'a> {
    type Item = &'a str;

    ghost next_gives = { YieldsFirstBy name_seen left_names };

    ghost remaining = { item_count left_names };

    fn next(&mut self) -> Option<&'a str> {
        let (named, others) = self.left.split_first()?;
        self.left = others;
        Some(named.name.as_str())
    }
}

impl Module {
    /// The names that the module assigns types to, in the order of the text. Takes no memory.
    pub fn type_names(&self) -> TypeNames<'_>
        ensures { left_names result ≡ map (λ t. t.name) (types_view self.now).types }
    {
        TypeNames {
            left: self.types.as_slice(),
        }
    }
}
