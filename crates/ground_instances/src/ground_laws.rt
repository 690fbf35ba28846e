//! What follows from the type of an instantiation alone.
ghost use Rattle.ground_instances.specs.declared.flat_ground.FlatGround.{FlatGround};
ghost use Rattle.ground_instances.specs.Fits.{FitTogether};
ghost use Rattle.ground_instances.specs.GroundView.{roles_of, base_of, inputs_of, kinds_of, instances_of};

/// The parts of an instantiation fit together: each base proposition has a mark and each role its inputs, texts stand in
/// order, all numbers are of what is there, and there are no more than the limits say.
pub fn a_ground_fits_together()
    ensures { (g : FlatGround) → FitTogether (roles_of g) (base_of g) (inputs_of g) g.starts.items (kinds_of g) (instances_of g) }
{}
