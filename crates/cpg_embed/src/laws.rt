//! What follows from the definitions. Each function has nothing to do: its contract is the law.

ghost use Rattle.cpg_embed.specs.Laws.{AnswersEndWithTheirToken, SeatsAreMemberships};

/// A node answers a frame with nothing, or with packets and then one token. So of the frames that an answer
/// hands over the last is its token, which goes to the next node, and those before it go to all.
pub fn answers_end_with_their_token()
    ensures { AnswersEndWithTheirToken }
{}

/// The places that `seats` finds are those of the joins by which connections are members: their records take the
/// memberships that last, all of them, in their order.
pub fn seats_are_memberships()
    ensures { SeatsAreMemberships }
{}
