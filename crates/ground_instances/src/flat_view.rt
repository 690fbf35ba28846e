//! What flat lists of instances tell.
ghost use Rattle.std.specs.Prelude.{◌≡◌, ◌<◌, [], length, get_or, slice_index_or, false};
ghost use Rattle.statement.specs.Kept.{Kept};
ghost use Rattle.ground_instances.specs.Grounds.{text_at, texts_at};
ghost use Rattle.ground_instances.specs.GroundView.{base_of, bodies_in, dropped_of, inputs_of, instances_of, kinds_of, roles_of, starts_of};
ghost use Rattle.statement.specs.declared.kind.Kind.TheVariants.{Other};

use crate::atom_literal::AtomLiteral;
use crate::flat_ground::FlatGround;
use meaning::Kind;

impl FlatGround {
    /// How many roles there are.
    pub fn roles(&self) -> usize
        ensures { result ≡ length (roles_of self.now) }
    {
        self.roles.len()
    }

    /// The canonical text of a role.
    pub fn role_text(&self, role: usize) -> &[u8]
        requires { role < length (roles_of self.now) }
        ensures { result.now ≡ text_at (roles_of self.now) role }
    {
        &self.roles[role]
    }

    /// How many base propositions there are.
    pub fn base(&self) -> usize
        ensures { result ≡ length (base_of self.now) }
    {
        self.base.len()
    }

    /// The canonical text of a base proposition.
    pub fn base_text(&self, proposition: usize) -> &[u8]
        requires { proposition < length (base_of self.now) }
        ensures { result.now ≡ text_at (base_of self.now) proposition }
    {
        &self.base[proposition]
    }

    /// Whether a base proposition holds at the start.
    pub fn starts(&self, proposition: usize) -> bool
        requires { proposition < length (starts_of self.now) }
        ensures { result ≡ slice_index_or (starts_of self.now) proposition false }
    {
        self.starts[proposition]
    }

    /// How many inputs a role has.
    pub fn inputs(&self, role: usize) -> usize
        requires { role < length (inputs_of self.now) }
        ensures { result ≡ length (texts_at (inputs_of self.now) role) }
    {
        self.inputs[role].len()
    }

    /// The canonical text of a role's input.
    pub fn input_text(&self, role: usize, number: u32) -> &[u8]
        requires role { role < length (inputs_of self.now) }
        requires number { number < length (texts_at (inputs_of self.now) role) }
        ensures { result.now ≡ text_at (texts_at (inputs_of self.now) role) number }
    {
        &self.inputs[role][number as usize]
    }

    /// How many atoms have a number.
    pub fn atoms(&self) -> usize
        ensures { result ≡ length (kinds_of self.now) }
    {
        self.kinds.len()
    }

    /// Where an atom stands in play.
    pub fn atom_kind(&self, atom: u32) -> Kind
        requires { atom < length (kinds_of self.now) }
        ensures { result ≡ slice_index_or (kinds_of self.now) atom Other }
    {
        self.kinds[atom as usize]
    }

    /// How many kept instances there are.
    pub fn many_kept(&self) -> usize
        ensures { result ≡ length (instances_of self.now) }
    {
        self.kept.count()
    }

    /// The place of a kept instance's alternative, from 0.
    pub fn alternative(&self, place: usize) -> u32
        requires { place < length (instances_of self.now) }
        ensures { (d : Kept) → result ≡ (get_or (instances_of self.now) place d).alternative }
    {
        self.kept.alternative(place)
    }

    /// The number of the atom that a kept instance's head is.
    pub fn head(&self, place: usize) -> u32
        requires { place < length (instances_of self.now) }
        ensures { (d : Kept) → result ≡ (get_or (instances_of self.now) place d).head }
    {
        self.kept.head(place)
    }

    /// What must be right in a kept instance, in the order of its body: an atom's number, and whether it is negated.
    pub fn body(&self, place: usize) -> &[AtomLiteral]
        requires { place < length (instances_of self.now) }
        ensures { (d : Kept) → result.now ≡ (get_or (instances_of self.now) place d).body }
    {
        self.kept.body(place)
    }

    /// How many bodies there are. Instances may share one.
    pub fn many_bodies(&self) -> usize
        ensures { result ≡ length (bodies_in self.now) }
    {
        self.kept.many_bodies()
    }

    /// The number of a kept instance's body, from 0: instances of one number share a body.
    pub fn body_number(&self, place: usize) -> usize
        requires { place < length (instances_of self.now) }
        ensures within { result < length (bodies_in self.now) }
        ensures body { (d : Kept) → (get_or (instances_of self.now) place d).body ≡ get_or (bodies_in self.now) result [] }
    {
        self.kept.body_number(place)
    }

    /// How many different possible atoms have no effect on play: `init` and `next` of what is no base proposition, and `legal`
    /// of what is no input of a role.
    pub fn dropped(&self) -> usize
        ensures { result ≡ dropped_of self.now }
    {
        self.dropped
    }
}
