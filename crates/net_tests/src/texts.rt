//! Inputs with their outputs.

/// A model without data: two units from A to B, each at a cost of 4.
pub const MODEL: &[u8] =
    b"minimize Cost; node A: net_out = 2; node B: net_in = 2; arc Move >= 0, <= 5, from A, to B, obj Cost 4;";

/// A data file without statements.
pub const DATA: &[u8] = b"# none";

/// Its compiled text. Node 3 is the outside node, which no arc uses.
pub const COMPILED: &str =
    "c constant 0\nc sign 1\nc node 1 A\nc node 2 B\nc arc 1 0 Move\np min 3 1\nn 1 2\nn 2 -2\na 1 2 0 5 4\n";

/// Its plan: 2 units at a cost of 4 on the only arc.
pub const PLAN: &str = "Cost = 8\nMove = 2\n";

/// A model without data whose arc has a lower bound below 0.
pub const NEGATIVE: &[u8] = b"minimize Cost;
node A: net_out = 2;
node B: net_in = 2;
arc Move >= -3, <= 5, from A, to B, obj Cost 4;
";

/// Its plan: 2 units at a cost of 4.
pub const NEGATIVE_PLAN: &str = "Cost = 8\nMove = 2\n";

/// Shipments between eight cities.
pub const CITIES: &[u8] = b"set CITIES;
set LINKS within (CITIES cross CITIES);
param supply {CITIES} >= 0;
param demand {CITIES} >= 0;
check: sum {i in CITIES} supply[i] = sum {j in CITIES} demand[j];
param cost {LINKS} >= 0;
param capacity {LINKS} >= 0;
minimize Total_Cost;
node Balance {k in CITIES}: net_in = demand[k] - supply[k];
arc Ship {(i,j) in LINKS} >= 0, <= capacity[i,j],
   from Balance[i], to Balance[j], obj Total_Cost cost[i,j];
";

/// Their data.
pub const CITIES_DATA: &[u8] = b"set CITIES := PITT NE SE BOS EWR BWI ATL MCO;
set LINKS := (PITT,NE) (PITT,SE) (NE,BOS) (NE,EWR) (NE,BWI)
             (SE,EWR) (SE,BWI) (SE,ATL) (SE,MCO);
param supply default 0 := PITT 450;
param demand default 0 := BOS 90, EWR 120, BWI 120, ATL 70, MCO 50;
param: cost capacity :=
PITT NE 25 250
PITT SE 35 250
NE BOS 17 100
NE EWR 7 100
NE BWI 13 100
SE EWR 13 100
SE BWI 8 100
SE ATL 2 100
SE MCO 21 100;
";

/// Their compiled text: all lower bounds are 0, so no offset differs from 0.
pub const CITIES_COMPILED: &str = "c constant 0
c sign 1
c node 1 Balance['PITT']
c node 2 Balance['NE']
c node 3 Balance['SE']
c node 4 Balance['BOS']
c node 5 Balance['EWR']
c node 6 Balance['BWI']
c node 7 Balance['ATL']
c node 8 Balance['MCO']
c arc 1 0 Ship['PITT','NE']
c arc 2 0 Ship['PITT','SE']
c arc 3 0 Ship['NE','BOS']
c arc 4 0 Ship['NE','EWR']
c arc 5 0 Ship['NE','BWI']
c arc 6 0 Ship['SE','EWR']
c arc 7 0 Ship['SE','BWI']
c arc 8 0 Ship['SE','ATL']
c arc 9 0 Ship['SE','MCO']
p min 9 9
n 1 450
n 4 -90
n 5 -120
n 6 -120
n 7 -70
n 8 -50
a 1 2 0 250 25
a 1 3 0 250 35
a 2 4 0 100 17
a 2 5 0 100 7
a 2 6 0 100 13
a 3 5 0 100 13
a 3 6 0 100 8
a 3 7 0 100 2
a 3 8 0 100 21
";

/// Three nodes: the path through node 2 costs 2 a unit, the direct arc 3. Costs times 4 are at most
/// 12, so the phases use the tolerances 6, 3 and 1.
pub const PROBLEM: &str = "p min 3 3\nn 1 4\nn 3 -4\na 1 2 2 5 1\na 1 3 0 5 3\na 2 3 0 5 1\n";

/// All four units take the path through node 2. No arc of that path is at a bound, so the potential
/// is 1 higher at node 2 and 2 higher at node 3.
pub const CERTIFICATE: &str = "s 8\nf 1 2 4\nf 1 3 0\nf 2 3 4\nv 1 0\nv 2 1\nv 3 2\n";
