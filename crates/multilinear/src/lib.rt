// Laws alone: weights, and the extension of a matrix to any point (01, 'Weights' and 'Dense form and evaluation'; 004, 1.1.2
// and Lemma 1), over any arithmetic. The definitions stand in specs/.
#![tactic(auto)]
