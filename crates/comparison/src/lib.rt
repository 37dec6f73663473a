// Laws alone: what compare answers and leaves on the sheet, and the agreement bound (01, 'Comparing two keys'; 02, E2), over any field that
// serves. The definitions stand in specs/.
#![tactic(auto)]
