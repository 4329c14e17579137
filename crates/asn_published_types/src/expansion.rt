//! How many nodes of types are built of actual parameters and of class fields: short texts can
//! write much so, and no type is built further than the profile could take.
use crate::limits::MOST_NODES;
use asn_published_text::modules::{Assignment, World};

/// How many nodes may come so of all types together, for each text.
const MOST_OF_ALL: usize = 200000;

/// How many more of them for each lexical item.
const FOR_EACH_ITEM: usize = 10;

/// How many nodes of all types came so.
#[derive(Clone, Copy)]
pub(crate) struct Expansion {
    count: usize,
    /// How many may come so, once that was worked out.
    most: Option<usize>,
}

/// How many nodes one type may have.
#[derive(Clone, Copy)]
pub(crate) struct Room {
    /// With those of its own lexical items.
    pub nodes: usize,
    /// The limit that it passes where it has more.
    pub most: usize,
    /// How many may stand there by its own lexical items.
    own: usize,
}

/// How many nodes may come so of all types of these modules.
fn most_of_all(world: &World<'_>) -> usize {
    let mut most = MOST_OF_ALL;
    for file in &world.files {
        most = most.saturating_add(file.len().saturating_mul(FOR_EACH_ITEM));
    }
    most
}

impl Expansion {
    /// None yet.
    pub fn none() -> Expansion {
        Expansion {
            count: 0,
            most: None,
        }
    }

    /// How many nodes the type of an assignment may have, which is an instance or not. Each node of its own text has a
    /// lexical item.
    pub fn room(
        &mut self,
        world: &World<'_>,
        assignment: &Assignment<'_>,
        is_instance: bool,
    ) -> Room {
        let items = assignment.end.saturating_sub(assignment.start);
        let own = if is_instance { 0 } else { items };
        let most_of_all = match self.most {
            Some(most) => most,
            None => most_of_all(world),
        };
        self.most = Some(most_of_all);
        let left = most_of_all.saturating_sub(self.count);
        if left < MOST_NODES {
            return Room {
                nodes: own.saturating_add(left),
                most: most_of_all,
                own,
            };
        }
        Room {
            nodes: items.saturating_add(MOST_NODES),
            most: MOST_NODES,
            own,
        }
    }

    /// Takes that a type has so many nodes.
    pub fn take(&mut self, nodes: usize, room: Room) {
        self.count = self.count.saturating_add(nodes.saturating_sub(room.own));
    }
}
