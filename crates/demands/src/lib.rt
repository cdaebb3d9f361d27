// What is demanded of the desk, over all calls and all lists of calls. The functions do nothing: their contracts are what is claimed.
#![tactic(auto)]

ghost use Rattle.demands.specs.Demands.{Demands};
ghost use Rattle.demands.specs.Orders.{Orders};
ghost use Rattle.demands.specs.Worked.{Worked};

// The customer's three demands hold.
pub fn demands()
    ensures { Demands }
{}

// The worked tables come out as document 01 says.
pub fn worked()
    ensures { Worked }
{}

// The checks of each call stand in the order that documents 01 and 02 say.
pub fn orders()
    ensures { Orders }
{}
