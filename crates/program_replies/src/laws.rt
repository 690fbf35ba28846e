//! The law of the replies.
ghost use Rattle.std.specs.Prelude.{◌≡◌, ℕ, List};
ghost use Rattle.statement.specs.Queries.{Query};
ghost use Rattle.statement.specs.Answers.{Reply};
ghost use Rattle.statement.specs.Replies.{IsReply};

use game::same_play_is_played_the_same;

/// To each query over any bytes there is one reply: all its bytes, and its status.
pub fn each_input_has_one_reply()
    ensures some { (query : Query) (bytes : List ℕ) → (reply : Reply) × IsReply query bytes reply }
    ensures once { (query : Query) (bytes : List ℕ) (reply other : Reply)
        → IsReply query bytes reply → IsReply query bytes other → reply ≡ other }
{
    same_play_is_played_the_same();
}
