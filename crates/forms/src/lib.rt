// The theory of curved cells: polar forms, stored cells, cuttings and grids, for every number and size of slots. No code.
#![tactic(auto)]
