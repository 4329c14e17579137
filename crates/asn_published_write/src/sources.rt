//! What is read of published texts before a type is written.
use asn_published_text::modules::World;
use asn_published_types::building::Forest;
use asn_published_types::order::Order;

/// What is read of the texts. Types are counted from the assignments on, and after them the instances.
#[derive(Drop)]
pub struct Sources<'t> {
    pub world: World<'t>,
    pub forest: Forest<'t>,
    pub numbers: Vec<Option<i128>>,
    pub names: Vec<String>,
    /// What separates the name of a type from the number of its level.
    pub level_mark: String,
    /// Of each type the first node.
    pub firsts: Vec<Option<usize>>,
    pub order: Order,
    /// How large the types may be together, as `asn_module::read_within` counts a module.
    pub most: u32,
}
