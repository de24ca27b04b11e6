//! A law of the rows of a bearer of a CU-UP, and of the frames that they put for its DU. The function does nothing: its contract is the law.

ghost use Rattle.proof_cu_up_orders.specs.context_orders.Orders.{done, ContextStep, CuUpModel};
ghost use Rattle.proof_cu_up_orders.specs.frame_rows.Sent.{sent_by};
ghost use Rattle.proof_cu_up_orders.specs.frame_rows.Shown.{PutsSent};
ghost use Rattle.unit_defs.specs.Ways.{Way};

/// Whatever is asked of a bearer, the frames that its row puts for its DU are what is sent then: a packet that gets its COUNT, one that
/// came with its COUNT, all that nothing confirmed after a loss, what is assumed at a resume, a report and all that nothing confirmed on a
/// new tunnel, a poll; each on the tunnel of its downlink, with the numbers and the restart marks of these sendings; else none.
pub fn rows_put_what_is_sent<M, C, P>()
    ensures { (way : Way M C P) (p : CuUpModel) (order : ContextStep P)
        → PutsSent way p.at.sn (sent_by p order) (done way order p) }
{}
