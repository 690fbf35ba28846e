//! What a node stands for, in four bytes.
//!
//! Three bits tell the kind, and 29 the number; those of an input hold 512 roles with 1,048,576 inputs each. No clause sees the
//! code.
ghost use Rattle.std.specs.Prelude.{◌≡◌, ◌<◌};
ghost use Rattle.statement.specs.declared.node_name.Name.TheVariants.{Input};
ghost use Rattle.propnet.specs.Labels.{name_by_tag, IsLabelled};

use statement::Name;
use std::marker::Model;

/// How many inputs of each role labels hold.
const INPUTS: u32 = 1_048_576;

/// What a node stands for, in four bytes. Contracts see the name.
#[derive(Clone, Copy)]
pub struct Label {
    /// Eight times the number, and below it a tag of the kind. An input has the number of its role times `INPUTS`, and its own below it.
    code: u32,
}

impl Model for Label {
    ghost use Rattle.std.specs.Prelude.{◌<◌, ◌%◌};
    ghost use Rattle.std.proofs.Common.{ap};
    ghost use Rattle.statement.specs.declared.node_name.Name.{Name};
    ghost use Rattle.propnet.specs.Labels.{name_of_code, code_of_name, code_of_name-back};

    ghost Value = { Name };

    ghost view = { λ label. name_of_code label.code };

    ghost invariant = { λ label. label.code % 8 < 6 };

    ghost inverse = { λ name. record { code = code_of_name name } };

    ghost inverse_ok = { λ label h. ap (λ code. record { code = code }) (code_of_name-back label.code h) };
}

impl Label {
    /// A label of a number, by the tag of its kind.
    fn tagged(number: u32, tag: u32) -> Label
        requires tag { tag < 6 }
        requires number { number < 536870912 }
        ensures { result ≡ name_by_tag tag number }
    {
        Label {
            code: number * 8 + tag,
        }
    }

    /// A label of an input of a role.
    fn input(role: u32, input: u32) -> Label
        requires role { role < 512 }
        requires input { input < 1048576 }
        ensures { result ≡ Input role input }
    {
        Label::tagged(role * INPUTS + input, 1)
    }

    /// A label of a name that one holds. The limits of an instantiation keep its roles, inputs, base propositions, atoms and kept
    /// instances far below what none holds.
    pub fn of(name: Name) -> Label
        requires { IsLabelled name }
        ensures { result ≡ name }
    {
        match name {
            Name::Base(p) => Label::tagged(p, 0),
            Name::Input(role, input) => Label::input(role, input),
            Name::Not(atom) => Label::tagged(atom, 2),
            Name::And(place) => Label::tagged(place, 3),
            Name::View(atom) => Label::tagged(atom, 4),
            Name::Transition(p) => Label::tagged(p, 5),
        }
    }

    /// The name.
    pub fn name(self) -> Name
        ensures { result ≡ self }
    {
        let number = self.code / 8;
        match self.code % 8 {
            0 => Name::Base(number),
            1 => Name::Input(number / INPUTS, number % INPUTS),
            2 => Name::Not(number),
            3 => Name::And(number),
            4 => Name::View(number),
            _ => Name::Transition(number),
        }
    }
}
