// A text whose elements are taken.
ghost use Rattle.std.specs.Prelude.{map};
ghost use Rattle.mesh_form.specs.Mesh.{Repeats};
ghost use Rattle.mesh_form.specs.Values.{id_of};
ghost use Rattle.mesh_nodes.specs.Nodes.{nodes_in};

// The text, in which no node number stands twice, the places of its nodes by their numbers, and the level limit of all that is taken.
// stays (5): that the places are seated is a clause of its users: `Seats` is no proposition, as a ghost field must be
#[derive(Clone, Copy)]
pub struct Source<'a> {
    pub t: &'a [u8],
    pub numbers: &'a [u64],
    pub places: &'a [usize],
    pub limit: u8,
    pub ghost once: { ¬ Repeats (map id_of (nodes_in t.now)) },
}
