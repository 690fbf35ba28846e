//! How large an instantiation and its network are.
ghost use Rattle.std.specs.Prelude.{◌≡◌, IfOk, List, length};
ghost use Rattle.ground_instances.specs.Fits.{count_all};
ghost use Rattle.ground_instances.specs.GroundView.{base_of, inputs_of, instances_of};
ghost use Rattle.propnet.specs.Nets.{gates_of};
ghost use Rattle.program_replies.specs.Games.{IsItsGround};
ghost use Rattle.program_searches.specs.Replies.{reply_of};
ghost use Rattle.statement.specs.Networks.{IsNetReply, net_lines};
ghost use Rattle.statement.specs.Tree.{Tree};
ghost use Rattle.statement.specs.declared.width.Width.{Width};

use ground_instances::FlatGround;
use program_searches::{Reply, add_count, answered};
use propnet::Net;
use std::alloc::{AllocError, Global};

/// How many inputs there are, all roles together.
fn inputs_in(ground: &FlatGround) -> usize
    ensures { result ≡ count_all (inputs_of ground.now) }
{
    let mut count = 0;
    for role in 0..ground.roles() {
        count += ground.inputs(role);
    }
    count
}

/// How large an instantiation and its network are, a number on each line.
fn measured(alloc: Global, ground: &FlatGround, net: &Net) -> Result<Vec<u8>, AllocError>
    ensures { IfOk result (λ output. output.items ≡ net_lines (length (base_of ground.now)) (count_all (inputs_of ground.now))
        (length (instances_of ground.now)) ground.now.dropped (length (gates_of net.now))) }
{
    let mut output = Vec::new(alloc);
    add_count("base", ground.base(), &mut output)?;
    add_count("inputs", inputs_in(ground), &mut output)?;
    add_count("instances", ground.many_kept(), &mut output)?;
    add_count("dropped", ground.dropped(), &mut output)?;
    add_count("nodes", net.nodes(), &mut output)?;
    Ok(output)
}

/// The reply to `net` over the ground of items: how large it and its network are.
pub(crate) fn reply_to_net(alloc: Global, ground: &FlatGround) -> Result<Reply, AllocError>
    ensures { IfOk result (λ reply. (width : Width) (items : List Tree) → IsItsGround width items ground.now → IsNetReply width items (reply_of reply)) }
{
    let Ok(net) = Net::of_flat(alloc, ground) else {
        return Err(AllocError);
    };
    Ok(answered(measured(alloc, ground, &net)?))
}
