// How many pieces of 8 bytes a plan has, the last one perhaps shorter, and how many of them are played.
ghost use Rattle.std.specs.Prelude.{◌≡◌};
ghost use Rattle.algorithm.specs.Run.{piece_count};
ghost use Rattle.engine.specs.Engine.{played};

pub fn piece_count(actions: &[u8]) -> usize
    ensures { result ≡ piece_count actions.now }
{
    actions.len().div_ceil(8)
}

// As many as the replies have room for.
pub fn played(actions: &[u8], replies: &[u8]) -> usize
    ensures { result ≡ played actions.now replies.now }
{
    piece_count(actions).min(replies.len() / 8)
}
